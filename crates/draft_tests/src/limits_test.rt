// The limits of a sheet, over memory that has more room than they leave.
use crate::lent::{Lent, Places};
use crate::sheet::{BAD_RANGE, Entry, FULL, MISPLACED, SHAPE, Step, follow};
use bits::record::Bits;
use draft::state::Draft;
use rows::Row;
use runs::record::Runs;
use std::alloc::{AllocError, Global};
use std::process::Abort;
use std::test::Fail;

const ROOMY: Places = Places {
    rows: 250,
    ranges: 250,
    heads: 70,
    cells: 5200,
    frames: 40,
    parts: 1200,
};

// Takes the same steps so many times.
fn repeat<R: Row>(
    rt: &impl Abort,
    draft: Draft,
    lent: &mut Lent<R>,
    steps: &[Step],
    times: usize,
) -> Draft {
    let mut latest = draft;
    for _ in 0..times {
        latest = follow(rt, latest, lent, steps);
    }
    latest
}

const FIELD: [Step; 1] = [(Entry::Field(0, 1), &[], None)];

// With so many fields, so many times the same steps reach a limit, and the others show it.
fn ends<R: Row>(
    rt: &(impl Abort + AllocGlobal),
    fields: usize,
    times: usize,
    steps: &[Step],
    others: &[Step],
) -> Result<(), Fail> {
    let mut lent = Lent::<R>::blank(rt.alloc(), ROOMY)?;
    let mut draft = repeat(rt, Draft::new(), &mut lent, &FIELD, fields);
    draft = repeat(rt, draft, &mut lent, steps, times);
    draft = follow(rt, draft, &mut lent, others);
    assert_eq!(rt; draft.lacking_cells(), 0);
    Ok(())
}

fn ends_in_every_kind(
    rt: &(impl Abort + AllocGlobal),
    fields: usize,
    times: usize,
    steps: &[Step],
    others: &[Step],
) -> Result<(), Fail> {
    ends::<Bits>(rt, fields, times, steps, others)?;
    ends::<Runs>(rt, fields, times, steps, others)
}

const PAST_FIELDS: [Step; 3] = [
    (Entry::Field(0, 1), &[], FULL),
    (Entry::Field(1, 0), &[], BAD_RANGE),
    (Entry::Frame(9), &[239, 1], None),
];

#[test]
fn there_are_at_most_240_fields(rt: HostRuntime) -> Result<(), Fail> {
    ends_in_every_kind(&rt, 239, 1, &FIELD, &PAST_FIELDS)
}

const WIDE: [Step; 2] = [
    (Entry::Field(128, 128), &[], None),
    (Entry::Field(0, 255), &[], None),
];

const TOO_WIDE: [Step; 4] = [
    (Entry::Field(0, 127), &[], None),
    (Entry::Field(0, 128), &[], BAD_RANGE),
    (Entry::Field(128, 128), &[], BAD_RANGE),
    (Entry::Field(0, 255), &[], BAD_RANGE),
];

#[test]
fn a_range_lies_below_the_span(rt: HostRuntime) -> Result<(), Fail> {
    ends::<Bits>(&rt, 0, 1, &WIDE, &[])?;
    ends::<Runs>(&rt, 0, 1, &TOO_WIDE, &[])
}

const TABLE: [Step; 2] = [
    (Entry::Table(0), &[1, 1], None),
    (Entry::Cells, &[0, 1], None),
];

const PAST_TABLES: [Step; 4] = [
    (Entry::Table(0), &[1, 1], FULL),
    (Entry::Table(0), &[0, 1], FULL),
    (Entry::Table(0), &[1], SHAPE),
    (Entry::Field(0, 1), &[], None),
];

#[test]
fn there_are_at_most_64_tables(rt: HostRuntime) -> Result<(), Fail> {
    ends_in_every_kind(&rt, 2, 64, &TABLE, &PAST_TABLES)
}

// A table of 1,024 cells, all of which but one come in one list.
const LARGE_TABLE: [Step; 9] = [
    (Entry::Table(0), &[1, 5, 2, 205], SHAPE),
    (Entry::Table(0), &[1, 32, 2, 32], None),
    (Entry::Cells, &[0; 2046], None),
    (Entry::Cells, &[0; 4], MISPLACED),
    (Entry::Cells, &[0; 5], MISPLACED),
    (Entry::Cells, &[0; 3], SHAPE),
    (Entry::Cells, &[], SHAPE),
    (Entry::Cells, &[0; 2], None),
    (Entry::Cells, &[], MISPLACED),
];

const PAST_CELLS: [Step; 3] = [
    (Entry::Table(0), &[1, 1], FULL),
    (Entry::Table(0), &[3, 1], FULL),
    (Entry::Table(0), &[1, 0], SHAPE),
];

#[test]
fn there_are_at_most_4096_cells(rt: HostRuntime) -> Result<(), Fail> {
    ends_in_every_kind(&rt, 3, 4, &LARGE_TABLE, &PAST_CELLS)
}

const FRAME: [Step; 1] = [(Entry::Frame(9), &[0, 1, 1, 1], None)];

const PAST_FRAMES: [Step; 4] = [
    (Entry::Frame(9), &[0, 1], FULL),
    (Entry::Frame(9), &[70, 1], FULL),
    (Entry::Frame(9), &[0, 1, 0, 1], FULL),
    (Entry::Frame(9), &[], SHAPE),
];

#[test]
fn there_are_at_most_32_frames(rt: HostRuntime) -> Result<(), Fail> {
    ends_in_every_kind(&rt, 2, 32, &FRAME, &PAST_FRAMES)
}

// Pairs of the fields from 0 on with the number 1.
fn fields_with_one(heap: Global, count: u8) -> Result<Vec<u8>, AllocError> {
    (0..count).flat_map(|field| [field, 1]).collect(heap)
}

// Sixteen frames of 64 parts are all that fits; 65 parts make no frame.
#[test]
fn there_are_at_most_1024_parts(rt: HostRuntime) -> Result<(), Fail> {
    let most = fields_with_one(rt.alloc(), 64)?;
    let more = fields_with_one(rt.alloc(), 65)?;
    let steps = [
        (Entry::Frame(9), more.as_slice(), SHAPE),
        (Entry::Frame(9), most.as_slice(), None),
    ];
    ends_in_every_kind(&rt, 65, 16, &steps, &PAST_FRAMES)
}
