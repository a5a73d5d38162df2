// Four words of 64 bits: value v is bit v mod 64 of word v div 64.
#[derive(Clone, Copy, PartialEq, Eq, Debug)]
pub struct Bits {
    pub words: [u64; 4],
}
