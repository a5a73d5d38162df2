// What a frame is kept as.

// A frame: where its parts begin, how many there are, and the limit on the sum of all their values
// and loads.
#[derive(Clone, Copy, PartialEq, Eq, Debug)]
pub struct Frame {
    pub first: usize,
    pub count: usize,
    pub limit: u16,
}

// One part of a frame: a task's field, and the time to load it.
#[derive(Clone, Copy, PartialEq, Eq, Debug)]
pub struct Part {
    pub field: u8,
    pub load: u8,
}

// The frames of a sheet, in memory that is lent.
#[derive(Clone, Copy, PartialEq, Eq, Debug)]
pub struct Frames<'a> {
    pub frames: &'a [Frame],
    pub parts: &'a [Part],
}
