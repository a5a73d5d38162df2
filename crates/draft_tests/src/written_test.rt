// What accepted entries write.
use crate::lent::{
    BLANK_AXIS, BLANK_CELL, BLANK_FRAME, BLANK_HEAD, BLANK_PART, BLANK_RANGE, Lent, Lists, same_row,
};
use crate::sheet::{AMPLE, MISSING, enter_sheet, step};
use bits::record::Bits;
use draft::memory::Range;
use frames::record::{Frame, Part};
use rows::Row;
use runs::record::Runs;
use std::process::Abort;
use std::test::Fail;
use tables::record::{Axis, Cell, Head};

// The ranges, heads, cells, frames and parts of the small sheet, each with one blank place behind.
const RANGES: [Range; 7] = [
    Range { lo: 0, hi: 9 },
    Range { lo: 1, hi: 8 },
    Range { lo: 2, hi: 2 },
    Range { lo: 0, hi: 127 },
    Range { lo: 5, hi: 6 },
    Range { lo: 7, hi: 90 },
    BLANK_RANGE,
];

const HEADS: [Head; 3] = [
    Head {
        x: 0,
        axes: [
            Axis {
                field: 1,
                extent: 2,
            },
            BLANK_AXIS,
            BLANK_AXIS,
            BLANK_AXIS,
        ],
        axis_count: 1,
        first: 0,
    },
    Head {
        x: 1,
        axes: [
            Axis {
                field: 2,
                extent: 4,
            },
            BLANK_AXIS,
            BLANK_AXIS,
            BLANK_AXIS,
        ],
        axis_count: 1,
        first: 2,
    },
    BLANK_HEAD,
];

const CELLS: [Cell; 7] = [
    Cell::Constant(3),
    Cell::Field(2),
    Cell::Field(3),
    Cell::Constant(200),
    Cell::Field(0),
    Cell::Field(4),
    BLANK_CELL,
];

const FRAMES: [Frame; 2] = [
    Frame {
        first: 0,
        count: 2,
        limit: 100,
    },
    BLANK_FRAME,
];

const PARTS: [Part; 3] = [
    Part { field: 3, load: 1 },
    Part { field: 4, load: 2 },
    BLANK_PART,
];

// The fields' rows have just the values of their ranges, and the row behind them is as it was.
fn rows_are_made<R: Row>(rt: &impl Abort, rows: &[R]) {
    assert_eq!(rt; rows.len(), RANGES.len());
    for (row, range) in rows.iter().zip(&RANGES) {
        assert!(rt; same_row(*row, R::make(range.lo, range.hi)));
    }
}

// The memory holds just what is entered.
fn memory_is_written(rt: &impl Abort, lists: &Lists) {
    assert_eq!(rt; lists.ranges.as_slice(), RANGES.as_slice());
    assert_eq!(rt; lists.heads.as_slice(), HEADS.as_slice());
    assert_eq!(rt; lists.cells.as_slice(), CELLS.as_slice());
    assert_eq!(rt; lists.frames.as_slice(), FRAMES.as_slice());
    assert_eq!(rt; lists.parts.as_slice(), PARTS.as_slice());
}

fn writes<R: Row>(rt: &(impl Abort + AllocGlobal)) -> Result<(), Fail> {
    let mut lent = Lent::<R>::blank(rt.alloc(), AMPLE)?;
    let draft = enter_sheet(rt, &mut lent, true);
    let after = step(rt, draft, &mut lent, MISSING);
    assert_eq!(rt; after.field_count(), 6);
    assert_eq!(rt; after.lacking_cells(), 0);
    rows_are_made(rt, lent.rows.as_slice());
    memory_is_written(rt, &lent.lists);
    Ok(())
}

#[test]
fn entries_write_their_places(rt: HostRuntime) -> Result<(), Fail> {
    writes::<Bits>(&rt)?;
    writes::<Runs>(&rt)
}
