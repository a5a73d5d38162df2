// Every refusal of every entry, alone and beside others: each case is tried on a sheet whose cells
// lack and on one that is whole, over memory that is short, just filled or has room, in every kind.
// The refusal is the uppermost that the sheet, the memory or the case meets.
//
// Some pairs cannot be met together. A list without a pair names no field, so of an empty list
// nothing stands twice, and no cell or part is unknown; x of a head still can be. Cells never meet a
// limit, since a head counts them all.
use crate::lent::{Lent, Places};
use crate::sheet::{
    AMPLE, BAD_RANGE, Entry, FULL, MISPLACED, MISSING, SHAPE, Step, enter_sheet, filled, step,
};
use bits::record::Bits;
use draft::fault::DraftFault;
use draft::state::Draft;
use rows::Row;
use runs::record::Runs;
use std::process::Abort;
use std::test::Fail;

// The places of a list: one less than the sheet fills, just those, or eight more.
#[derive(Clone, Copy, PartialEq, Eq)]
enum Fit {
    Less,
    Just,
    More,
}

use Fit::{Just, Less, More};

impl Fit {
    fn places(self, filled: usize) -> usize {
        match self {
            Fit::Less => filled.saturating_sub(1),
            Fit::Just => filled,
            Fit::More => filled.saturating_add(8),
        }
    }

    fn has_room(self) -> bool {
        self == Fit::More
    }
}

// How rows, ranges, heads, cells, frames and parts fit.
type Fits = [Fit; 6];

const LENDINGS: [Fits; 16] = [
    [More, More, More, More, More, More],
    [Just, More, More, More, More, More],
    [More, Just, More, More, More, More],
    [More, More, Just, More, More, More],
    [More, More, More, Just, More, More],
    [More, More, More, More, Just, More],
    [More, More, More, More, More, Just],
    [Just, Just, Just, Just, Just, Just],
    [Less, More, More, More, More, More],
    [More, Less, More, More, More, More],
    [More, More, Less, More, More, More],
    [More, More, More, Less, More, More],
    [More, More, More, More, Less, More],
    [More, More, More, More, More, Less],
    [Less, Just, Just, Just, Just, Just],
    [Less, Less, Less, Less, Less, Less],
];

// The lent places.
fn places(fits: Fits, filled: Places) -> Places {
    let [rows, ranges, heads, cells, frames, parts] = fits;
    Places {
        rows: rows.places(filled.rows),
        ranges: ranges.places(filled.ranges),
        heads: heads.places(filled.heads),
        cells: cells.places(filled.cells),
        frames: frames.places(filled.frames),
        parts: parts.places(filled.parts),
    }
}

fn is_short(fits: Fits) -> bool {
    fits.contains(&Fit::Less)
}

// Whether the lists that an entry writes have no room.
fn is_full(fits: Fits, entry: Entry) -> bool {
    let [rows, ranges, heads, cells, frames, parts] = fits;
    match entry {
        Entry::Field(_, _) => !rows.has_room() || !ranges.has_room(),
        Entry::Table(_) => !heads.has_room() || !cells.has_room(),
        Entry::Cells => false,
        Entry::Frame(_) => !frames.has_room() || !parts.has_room(),
    }
}

// Whether cells lack where others are entered, or cells are entered where none lack.
fn is_misplaced(open: bool, entry: Entry) -> bool {
    match entry {
        Entry::Cells => !open,
        _ => open,
    }
}

// The uppermost refusal that the sheet and the memory meet.
fn met_before(open: bool, fits: Fits, entry: Entry) -> Option<DraftFault> {
    if is_short(fits) {
        Some(DraftFault::Short)
    } else if is_misplaced(open, entry) {
        Some(DraftFault::Misplaced)
    } else if is_full(fits, entry) {
        Some(DraftFault::Full)
    } else {
        None
    }
}

const NO_SUCH_FIELD: Option<DraftFault> = Some(DraftFault::NoSuchField);

const TWICE: Option<DraftFault> = Some(DraftFault::Twice);

// The uppermost refusal that the sheet, the memory or the case meets: the least, since refusals
// are ordered as their lines stand.
fn wanted(open: bool, fits: Fits, case: Step) -> Option<DraftFault> {
    let (entry, _, own) = case;
    own.into_iter().chain(met_before(open, fits, entry)).min()
}

// A further field.
const FURTHER: Step = (Entry::Field(2, 5), &[], None);

// A draft that is given back has what it had, and takes the entry that belongs next.
fn goes_on<R: Row>(rt: &impl Abort, draft: Draft, lent: &mut Lent<R>, open: bool) {
    assert_eq!(rt; draft.field_count(), 6);
    assert_eq!(rt; draft.lacking_cells(), if open { 3 } else { 0 });
    let next = if open { MISSING } else { FURTHER };
    let after = step(rt, draft, lent, next);
    assert_eq!(rt; after.field_count(), if open { 6 } else { 7 });
    assert_eq!(rt; after.lacking_cells(), 0);
}

// After a refusal the lent places are as they were, and the draft goes on.
fn stays<R: Row>(
    rt: &impl Abort,
    draft: Draft,
    tried: &Lent<R>,
    lent: Places,
    whole: &mut Lent<R>,
    open: bool,
) -> Result<(), Fail> {
    let before = whole.copied(lent)?;
    assert!(rt; tried.has_rows_of(&before));
    assert_eq!(rt; tried.lists, before.lists);
    goes_on(rt, draft, whole, open);
    Ok(())
}

// The case is answered by the uppermost refusal that is met; a refusal leaves all as it was.
fn answers<R: Row>(
    rt: &(impl Abort + AllocGlobal),
    open: bool,
    fits: Fits,
    case: Step,
) -> Result<(), Fail> {
    let mut whole = Lent::<R>::blank(rt.alloc(), AMPLE)?;
    let draft = enter_sheet(rt, &mut whole, open);
    let lent = places(fits, filled(open));
    let mut tried = whole.copied(lent)?;
    let wanted = wanted(open, fits, case);
    let (entry, list, _) = case;
    let after = step(rt, draft, &mut tried, (entry, list, wanted));
    if wanted.is_none() {
        return Ok(());
    }
    stays(rt, after, &tried, lent, &mut whole, open)
}

fn answers_everywhere<R: Row>(rt: &(impl Abort + AllocGlobal), case: Step) -> Result<(), Fail> {
    for fits in LENDINGS {
        answers::<R>(rt, false, fits, case)?;
        answers::<R>(rt, true, fits, case)?;
    }
    Ok(())
}

fn all_answer(rt: &(impl Abort + AllocGlobal), cases: &[Step]) -> Result<(), Fail> {
    for case in cases {
        answers_everywhere::<Bits>(rt, *case)?;
        answers_everywhere::<Runs>(rt, *case)?;
    }
    Ok(())
}

const FIELDS: [Step; 6] = [
    (Entry::Field(0, 9), &[], None),
    (Entry::Field(127, 127), &[], None),
    (Entry::Field(0, 127), &[], None),
    (Entry::Field(5, 4), &[], BAD_RANGE),
    (Entry::Field(255, 0), &[], BAD_RANGE),
    (Entry::Field(255, 254), &[], BAD_RANGE),
];

#[test]
fn fields_are_refused_by_the_uppermost_line(rt: HostRuntime) -> Result<(), Fail> {
    all_answer(&rt, &FIELDS)
}

// The memory that has room has eight cells more.
const TABLES: [Step; 22] = [
    (Entry::Table(5), &[0, 2], None),
    (Entry::Table(5), &[0, 2, 1, 2, 2, 2, 3, 1], None),
    (Entry::Table(5), &[], SHAPE),
    (Entry::Table(5), &[0], SHAPE),
    (Entry::Table(5), &[0, 2, 1], SHAPE),
    (Entry::Table(5), &[0, 1, 1, 1, 2, 1, 3, 1, 4, 1], SHAPE),
    (Entry::Table(5), &[0, 2, 1, 0], SHAPE),
    (Entry::Table(5), &[0, 5, 1, 205], SHAPE),
    // with an unknown field, and with one that stands twice
    (Entry::Table(6), &[], SHAPE),
    (Entry::Table(5), &[6, 2, 1], SHAPE),
    (Entry::Table(5), &[5, 2, 1], SHAPE),
    (Entry::Table(5), &[0, 9], FULL),
    // with an unknown field, and with one that stands twice
    (Entry::Table(5), &[6, 9], FULL),
    (Entry::Table(5), &[0, 3, 0, 3], FULL),
    (Entry::Table(6), &[0, 2], NO_SUCH_FIELD),
    (Entry::Table(5), &[0, 2, 6, 2], NO_SUCH_FIELD),
    (Entry::Table(5), &[255, 2], NO_SUCH_FIELD),
    // with a field that stands twice
    (Entry::Table(6), &[6, 2], NO_SUCH_FIELD),
    (Entry::Table(5), &[0, 2, 0, 2, 6, 2], NO_SUCH_FIELD),
    (Entry::Table(5), &[5, 2], TWICE),
    (Entry::Table(5), &[0, 2, 5, 2], TWICE),
    (Entry::Table(5), &[0, 2, 1, 2, 0, 2], TWICE),
];

#[test]
fn tables_are_refused_by_the_uppermost_line(rt: HostRuntime) -> Result<(), Fail> {
    all_answer(&rt, &TABLES)
}

// Three cells lack; the table names fields 1, 2 and 3.
const CELLS: [Step; 27] = [
    (Entry::Cells, &[0, 200], None),
    (Entry::Cells, &[1, 0, 1, 5], None),
    (Entry::Cells, &[0, 1, 0, 1, 1, 4], None),
    (Entry::Cells, &[0, 1, 0, 1, 0, 1, 0, 1], MISPLACED),
    // with a byte left over, a bad mark, an unknown field, and one that stands twice
    (Entry::Cells, &[0, 1, 0, 1, 0, 1, 0, 1, 0], MISPLACED),
    (Entry::Cells, &[0, 1, 0, 1, 0, 1, 2, 1], MISPLACED),
    (Entry::Cells, &[0, 1, 0, 1, 0, 1, 1, 6], MISPLACED),
    (Entry::Cells, &[0, 1, 0, 1, 0, 1, 1, 1], MISPLACED),
    (Entry::Cells, &[], SHAPE),
    (Entry::Cells, &[0], SHAPE),
    (Entry::Cells, &[0, 1, 0, 1, 0, 1, 0], SHAPE),
    (Entry::Cells, &[2, 0], SHAPE),
    (Entry::Cells, &[0, 1, 255, 0], SHAPE),
    // with an unknown field, and with one that stands twice
    (Entry::Cells, &[1, 6, 0], SHAPE),
    (Entry::Cells, &[1, 6, 2, 0], SHAPE),
    (Entry::Cells, &[1, 1, 0], SHAPE),
    (Entry::Cells, &[1, 0, 1, 0, 2, 0], SHAPE),
    (Entry::Cells, &[1, 6], NO_SUCH_FIELD),
    (Entry::Cells, &[0, 6, 1, 255], NO_SUCH_FIELD),
    // with a field that stands twice
    (Entry::Cells, &[1, 6, 1, 6], NO_SUCH_FIELD),
    (Entry::Cells, &[1, 1, 1, 6], NO_SUCH_FIELD),
    (Entry::Cells, &[1, 1], TWICE),
    (Entry::Cells, &[1, 2], TWICE),
    (Entry::Cells, &[1, 3], TWICE),
    (Entry::Cells, &[0, 1, 1, 0, 1, 3], TWICE),
    (Entry::Cells, &[1, 0, 1, 0], TWICE),
    (Entry::Cells, &[1, 0, 0, 0, 1, 0], TWICE),
];

#[test]
fn cells_are_refused_by_the_uppermost_line(rt: HostRuntime) -> Result<(), Fail> {
    all_answer(&rt, &CELLS)
}

// The memory that has room has eight parts more.
const FRAMES: [Step; 16] = [
    (Entry::Frame(0), &[0, 1], None),
    (
        Entry::Frame(65535),
        &[5, 255, 4, 0, 3, 1, 2, 1, 1, 1, 0, 1],
        None,
    ),
    (Entry::Frame(9), &[], SHAPE),
    (Entry::Frame(9), &[0], SHAPE),
    (Entry::Frame(9), &[0, 1, 1], SHAPE),
    // with an unknown field, and with one that stands twice
    (Entry::Frame(9), &[6, 1, 1], SHAPE),
    (Entry::Frame(9), &[6; 130], SHAPE),
    (Entry::Frame(9), &[0, 1, 0, 1, 1], SHAPE),
    (Entry::Frame(9), &[0; 130], SHAPE),
    // with an unknown field, and with one that stands twice
    (
        Entry::Frame(9),
        &[0, 0, 1, 0, 2, 0, 3, 0, 4, 0, 5, 0, 6, 0, 7, 0, 8, 0],
        FULL,
    ),
    (Entry::Frame(9), &[0; 128], FULL),
    (Entry::Frame(9), &[6, 1], NO_SUCH_FIELD),
    (Entry::Frame(9), &[0, 1, 255, 1], NO_SUCH_FIELD),
    // with a field that stands twice
    (Entry::Frame(9), &[0, 1, 0, 1, 6, 1], NO_SUCH_FIELD),
    (Entry::Frame(9), &[0, 1, 0, 1], TWICE),
    (Entry::Frame(9), &[0, 1, 1, 1, 0, 2], TWICE),
];

#[test]
fn frames_are_refused_by_the_uppermost_line(rt: HostRuntime) -> Result<(), Fail> {
    all_answer(&rt, &FRAMES)
}
