// The memory of a draft, lent by the caller at each call.
use frames::record::{Frame, Part};
use tables::record::{Cell, Head};

// The values that a field was entered with: lo to hi, both included.
#[derive(Clone, Copy, PartialEq, Eq, Debug)]
pub struct Range {
    pub lo: u8,
    pub hi: u8,
}

// Places for what is entered: a range for each field, heads and cells of tables, frames and their
// parts.
#[derive(Drop)]
pub struct Memory<'a> {
    pub ranges: &'a mut [Range],
    pub heads: &'a mut [Head],
    pub cells: &'a mut [Cell],
    pub frames: &'a mut [Frame],
    pub parts: &'a mut [Part],
}
