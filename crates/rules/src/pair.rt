// What a joined book is made of.
#[derive(Clone, Copy)]
pub struct Joined<A, B> {
    pub first: A,
    pub second: B,
}

// Where a rule of a joined book stands: in the first book or in the second, with its place there.
#[derive(Clone, Copy)]
pub(crate) enum Place {
    First(usize),
    Second(usize),
}
