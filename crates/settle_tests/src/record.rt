// What pairs of fields that differ are kept as.

// Two fields that differ.
#[derive(Clone, Copy)]
pub struct Pair {
    pub one: u8,
    pub other: u8,
}

// Pairs of fields that differ, in memory that is lent.
#[derive(Clone, Copy)]
pub struct Differing<'a> {
    pub pairs: &'a [Pair],
}
