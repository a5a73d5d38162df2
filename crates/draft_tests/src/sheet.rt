// Entries as values, and a small sheet that is made of them.
use crate::lent::{Lent, Places};
use draft::fault::{DraftFault, Refused};
use draft::state::Draft;
use rows::Row;
use std::process::Abort;

// What is entered, beside a list of pairs.
#[derive(Clone, Copy)]
pub(crate) enum Entry {
    // The values from the first to the second; the list is not read.
    Field(u8, u8),
    // The field that is looked up, and pairs of a field and an extent.
    Table(u8),
    // Pairs of a mark and a number.
    Cells,
    // The limit, and pairs of a field and a load.
    Frame(u16),
}

// Makes one entry.
pub(crate) fn enter<R: Row>(
    draft: Draft,
    lent: &mut Lent<R>,
    entry: Entry,
    list: &[u8],
) -> Result<Draft, Refused> {
    let rows = lent.rows.as_mut_slice();
    let mut memory = lent.lists.lend();
    match entry {
        Entry::Field(lo, hi) => draft.enter_field(rows, &mut memory, lo, hi),
        Entry::Table(x) => draft.enter_table(rows, &mut memory, x, list),
        Entry::Cells => draft.enter_cells(rows, &mut memory, list),
        Entry::Frame(limit) => draft.enter_frame(rows, &mut memory, limit, list),
    }
}

// Refusals that more than one table of steps names.
pub(crate) const MISPLACED: Option<DraftFault> = Some(DraftFault::Misplaced);

pub(crate) const BAD_RANGE: Option<DraftFault> = Some(DraftFault::BadRange);

pub(crate) const SHAPE: Option<DraftFault> = Some(DraftFault::Shape);

pub(crate) const FULL: Option<DraftFault> = Some(DraftFault::Full);

// An entry with its list, and the refusal that it meets; none if it is accepted.
pub(crate) type Step<'a> = (Entry, &'a [u8], Option<DraftFault>);

// Makes one entry, which has to be answered as the step says.
pub(crate) fn step<R: Row>(rt: &impl Abort, draft: Draft, lent: &mut Lent<R>, step: Step) -> Draft {
    let (entry, list, wanted) = step;
    let (after, fault) = match enter(draft, lent, entry, list) {
        Ok(after) => (after, None),
        Err(refused) => (refused.draft, Some(refused.fault)),
    };
    assert_eq!(rt; fault, wanted);
    after
}

// Makes entries one after another.
pub(crate) fn follow<R: Row>(
    rt: &impl Abort,
    draft: Draft,
    lent: &mut Lent<R>,
    steps: &[Step],
) -> Draft {
    let mut latest = draft;
    for each in steps {
        latest = step(rt, latest, lent, *each);
    }
    latest
}

// Six fields, a table and a frame.
const WHOLE: [Step; 9] = [
    (Entry::Field(0, 9), &[], None),
    (Entry::Field(1, 8), &[], None),
    (Entry::Field(2, 2), &[], None),
    (Entry::Field(0, 127), &[], None),
    (Entry::Field(5, 6), &[], None),
    (Entry::Field(7, 90), &[], None),
    (Entry::Table(0), &[1, 2], None),
    (Entry::Cells, &[0, 3, 1, 2], None),
    (Entry::Frame(100), &[3, 1, 4, 2], None),
];

// A further table, with one cell of four.
const BEGUN: [Step; 2] = [
    (Entry::Table(1), &[2, 4], None),
    (Entry::Cells, &[1, 3], None),
];

// The three cells that the further table lacks.
pub(crate) const MISSING: Step = (Entry::Cells, &[0, 200, 1, 0, 1, 4], None);

// Enters the small sheet; cells lack if it is open.
pub(crate) fn enter_sheet<R: Row>(rt: &impl Abort, lent: &mut Lent<R>, open: bool) -> Draft {
    let draft = follow(rt, Draft::new(), lent, &WHOLE);
    if open {
        follow(rt, draft, lent, &BEGUN)
    } else {
        draft
    }
}

// The places that the small sheet fills.
pub(crate) fn filled(open: bool) -> Places {
    Places {
        rows: 6,
        ranges: 6,
        heads: if open { 2 } else { 1 },
        cells: if open { 6 } else { 2 },
        frames: 1,
        parts: 2,
    }
}

// Places for the small sheet, and one more of each.
pub(crate) const AMPLE: Places = Places {
    rows: 7,
    ranges: 7,
    heads: 3,
    cells: 7,
    frames: 2,
    parts: 3,
};
