// Rows and memory that are lent to a draft.
use draft::memory::{Memory, Range};
use frames::record::{Frame, Part};
use rows::Row;
use std::alloc::{AllocError, Global};
use tables::record::{Axis, Cell, Head};

// How many places of each list are lent.
#[derive(Clone, Copy)]
pub(crate) struct Places {
    pub rows: usize,
    pub ranges: usize,
    pub heads: usize,
    pub cells: usize,
    pub frames: usize,
    pub parts: usize,
}

// The lists of the memory.
#[derive(PartialEq, Debug, Drop)]
pub(crate) struct Lists {
    pub ranges: Vec<Range>,
    pub heads: Vec<Head>,
    pub cells: Vec<Cell>,
    pub frames: Vec<Frame>,
    pub parts: Vec<Part>,
}

#[derive(Drop)]
pub(crate) struct Lent<R: Row> {
    pub rows: Vec<R>,
    pub lists: Lists,
}

pub(crate) const BLANK_RANGE: Range = Range { lo: 1, hi: 0 };

pub(crate) const BLANK_AXIS: Axis = Axis {
    field: 0,
    extent: 0,
};

pub(crate) const BLANK_HEAD: Head = Head {
    x: 0,
    axes: [BLANK_AXIS; 4],
    axis_count: 0,
    first: 0,
};

pub(crate) const BLANK_CELL: Cell = Cell::Constant(0);

pub(crate) const BLANK_FRAME: Frame = Frame {
    first: 0,
    count: 0,
    limit: 0,
};

pub(crate) const BLANK_PART: Part = Part { field: 0, load: 0 };

// The first items of a list, and blanks behind them, so many in all.
fn fitted<T: Copy>(items: &Vec<T>, blank: T, places: usize) -> Result<Vec<T>, AllocError> {
    let mut list = items.clone()?;
    list.resize(places, blank)?;
    Ok(list)
}

impl Lists {
    // A copy with so many places.
    fn copied(&self, places: Places) -> Result<Lists, AllocError> {
        Ok(Lists {
            ranges: fitted(&self.ranges, BLANK_RANGE, places.ranges)?,
            heads: fitted(&self.heads, BLANK_HEAD, places.heads)?,
            cells: fitted(&self.cells, BLANK_CELL, places.cells)?,
            frames: fitted(&self.frames, BLANK_FRAME, places.frames)?,
            parts: fitted(&self.parts, BLANK_PART, places.parts)?,
        })
    }

    // The lists, lent as the memory of a draft.
    pub(crate) fn lend<'a>(&'a mut self) -> Memory<'a> {
        Memory {
            ranges: self.ranges.as_mut_slice(),
            heads: self.heads.as_mut_slice(),
            cells: self.cells.as_mut_slice(),
            frames: self.frames.as_mut_slice(),
            parts: self.parts.as_mut_slice(),
        }
    }
}

// Whether two rows have the same values.
pub(crate) fn same_row<R: Row>(row: R, other: R) -> bool {
    (0..=u8::MAX).all(|v| row.has(v) == other.has(v))
}

impl<R: Row> Lent<R> {
    // So many blank places.
    pub(crate) fn blank(heap: Global, places: Places) -> Result<Lent<R>, AllocError> {
        let nothing = Lent {
            rows: Vec::new(heap),
            lists: Lists {
                ranges: Vec::new(heap),
                heads: Vec::new(heap),
                cells: Vec::new(heap),
                frames: Vec::new(heap),
                parts: Vec::new(heap),
            },
        };
        nothing.copied(places)
    }

    // A copy with so many places: what is beyond them is left out, and places beyond are blank.
    pub(crate) fn copied(&self, places: Places) -> Result<Lent<R>, AllocError> {
        Ok(Lent {
            rows: fitted(&self.rows, R::make(1, 0), places.rows)?,
            lists: self.lists.copied(places)?,
        })
    }

    // Whether both have rows of the same values, one by one.
    pub(crate) fn has_rows_of(&self, other: &Lent<R>) -> bool {
        self.rows.len() == other.rows.len()
            && self
                .rows
                .iter()
                .zip(&other.rows)
                .all(|(row, wanted)| same_row(*row, *wanted))
    }
}
