// Up to 64 runs of values with a count. Only the counted pairs are read, in whatever order they
// stand and however they overlap; a count above 64 is read as 64.
use rows::run::Run;

#[derive(Clone, Copy, Debug)]
pub struct Runs {
    pub pairs: [Run; 64],
    pub count: u8,
}
