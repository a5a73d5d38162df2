// What a pass over a table's cells finds.
use crate::record::Cell;

// The cells that open index values select and that meet x: none, only this one, or several.
#[derive(Clone, Copy, PartialEq, Eq, Debug)]
pub(crate) enum Hits {
    Nothing,
    Only(Cell),
    Several,
}

// For each of up to four axes a row of marks, one for each index: whether some selected cell at the
// index meets x.
pub(crate) type Marks = [[bool; 256]; 4];

// What is without support so far: of x a row of values, of the axes the indices that are not marked.
#[derive(Drop)]
pub(crate) struct Rests<R> {
    pub x: R,
    pub axes: Marks,
}
