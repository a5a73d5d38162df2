// Settling with a book that is written outside the planner, in every kind.
use crate::record::{Differing, Pair};
use bits::record::Bits;
use rows::Row;
use rules::Book;
use rules::fault::NarrowFault;
use rules::pair::Joined;
use runs::record::Runs;
use settle::outcome::{Grade, Outcome};
use settle::rings::has_ring;
use settle::settling::settle;
use std::alloc::{AllocError, Global};
use std::process::Abort;
use std::test::Fail;
use tables::record::{Axis, Cell, Head, Tables};

// The values from low to high; none if low is above high.
type Range = (u8, u8);

const NONE: Range = (1, 0);

// A row for each range.
fn rows_of<R: Row>(heap: Global, ranges: &[Range]) -> Result<Vec<R>, AllocError> {
    ranges
        .iter()
        .map(|(low, high)| R::make(*low, *high))
        .collect(heap)
}

// Whether a row has just the values of a range.
fn reads_as<R: Row>(row: R, (low, high): Range) -> bool {
    let wanted = R::make(low, high);
    row.minus(wanted).is_empty() && wanted.minus(row).is_empty()
}

// Whether each row has just the values of its range.
fn holds<R: Row>(rows: &[R], ranges: &[Range]) -> bool {
    rows.len() == ranges.len()
        && rows
            .iter()
            .zip(ranges)
            .all(|(row, range)| reads_as(*row, *range))
}

// Settling all but the last row, which is beyond the fields, tells the outcome and leaves the
// ranges.
fn settles<R: Row, B: Book<R>>(
    rt: &(impl Abort + AllocGlobal),
    book: &B,
    ranges: &[Range],
    outcome: Result<Outcome, NarrowFault>,
    left: &[Range],
) -> Result<(), Fail> {
    let mut rows = rows_of::<R>(rt.alloc(), ranges)?;
    assert!(rt; rows.len() > 0);
    let n = rows.len() - 1;
    assert_eq!(rt; settle(book, n, rows.as_mut_slice()), outcome);
    assert!(rt; holds(rows.as_slice(), left));
    Ok(())
}

fn told(grade: Grade, rounds: u32) -> Result<Outcome, NarrowFault> {
    Ok(Outcome { grade, rounds })
}

// A path of fields has no ring, so each value left stands in a full setting.
fn path<R: Row>(rt: &(impl Abort + AllocGlobal)) -> Result<(), Fail> {
    let pairs = [Pair { one: 0, other: 1 }, Pair { one: 1, other: 2 }];
    let book = Differing { pairs: &pairs };
    assert_eq!(rt; has_ring::<R, Differing>(&book), Ok(false));
    settles::<R, Differing>(
        rt,
        &book,
        &[(0, 2), (0, 1), (1, 1), (7, 9)],
        told(Grade::Exact, 3),
        &[(1, 2), (0, 0), (1, 1), (7, 9)],
    )?;
    settles::<R, Differing>(
        rt,
        &book,
        &[(5, 5), (5, 5), (0, 3), (7, 9)],
        told(Grade::Nothing, 1),
        &[NONE, NONE, NONE, (7, 9)],
    )?;
    settles::<R, Differing>(
        rt,
        &book,
        &[(0, 9), (0, 9), NONE, (7, 9)],
        told(Grade::Nothing, 0),
        &[NONE, NONE, NONE, (7, 9)],
    )
}

// Three fields of two values cannot all differ, and each pair of them can: the rules have a ring,
// and what is left is the largest standing choice.
fn triangle<R: Row>(rt: &(impl Abort + AllocGlobal)) -> Result<(), Fail> {
    let pairs = [
        Pair { one: 0, other: 1 },
        Pair { one: 1, other: 2 },
        Pair { one: 2, other: 0 },
    ];
    let book = Differing { pairs: &pairs };
    assert_eq!(rt; has_ring::<R, Differing>(&book), Ok(true));
    settles::<R, Differing>(
        rt,
        &book,
        &[(0, 1), (0, 1), (0, 1), (7, 9)],
        told(Grade::Local, 1),
        &[(0, 1), (0, 1), (0, 1), (7, 9)],
    )?;
    settles::<R, Differing>(
        rt,
        &book,
        &[(0, 0), (0, 1), (0, 1), (7, 9)],
        told(Grade::Nothing, 1),
        &[NONE, NONE, NONE, (7, 9)],
    )?;
    settles::<R, Differing>(
        rt,
        &book,
        &[(0, 0), (0, 1), (0, 2), (7, 9)],
        told(Grade::Local, 2),
        &[(0, 0), (1, 1), (2, 2), (7, 9)],
    )
}

// A table and a foreign book as one: field 2 is looked up from field 0, and differs from field 1.
fn joined<R: Row>(rt: &(impl Abort + AllocGlobal)) -> Result<(), Fail> {
    let axis = Axis {
        field: 0,
        extent: 2,
    };
    let heads = [Head {
        x: 2,
        axes: [axis, axis, axis, axis],
        axis_count: 1,
        first: 0,
    }];
    let cells = [Cell::Constant(30), Cell::Constant(45)];
    let pairs = [Pair { one: 1, other: 2 }];
    let book = Joined {
        first: Tables {
            heads: &heads,
            cells: &cells,
        },
        second: Differing { pairs: &pairs },
    };
    assert_eq!(rt; has_ring::<R, Joined<Tables, Differing>>(&book), Ok(false));
    settles::<R, Joined<Tables, Differing>>(
        rt,
        &book,
        &[(0, 4), (30, 30), (20, 60), (7, 9)],
        told(Grade::Exact, 3),
        &[(1, 1), (30, 30), (45, 45), (7, 9)],
    )
}

// What does not fit is refused, and the rows stay as they are.
fn refuses<R: Row>(rt: &(impl Abort + AllocGlobal)) -> Result<(), Fail> {
    let twice = [Pair { one: 1, other: 1 }];
    let far = [Pair { one: 0, other: 3 }];
    let ranges = [(0, 1), (0, 1), (0, 1), (7, 9)];
    for pairs in [&twice, &far] {
        let book = Differing { pairs };
        settles::<R, Differing>(rt, &book, &ranges, Err(NarrowFault::Unfit), &ranges)?;
    }
    assert_eq!(rt;
        has_ring::<R, Differing>(&Differing { pairs: &twice }),
        Err(NarrowFault::Unfit)
    );
    let mut rows = rows_of::<R>(rt.alloc(), &ranges)?;
    let book = Differing { pairs: &[] };
    assert_eq!(rt;
        settle(&book, 5, rows.as_mut_slice()),
        Err(NarrowFault::Unfit)
    );
    assert_eq!(rt;
        settle(&book, 4, rows.as_mut_slice()),
        told(Grade::Exact, 1)
    );
    assert!(rt; holds(rows.as_slice(), &ranges));
    Ok(())
}

#[test]
fn a_path_settles_exactly(rt: HostRuntime) -> Result<(), Fail> {
    path::<Bits>(&rt)?;
    path::<Runs>(&rt)
}

#[test]
fn a_triangle_settles_locally(rt: HostRuntime) -> Result<(), Fail> {
    triangle::<Bits>(&rt)?;
    triangle::<Runs>(&rt)
}

#[test]
fn a_table_and_a_foreign_book_settle_as_one(rt: HostRuntime) -> Result<(), Fail> {
    joined::<Bits>(&rt)?;
    joined::<Runs>(&rt)
}

#[test]
fn what_does_not_fit_is_refused(rt: HostRuntime) -> Result<(), Fail> {
    refuses::<Bits>(&rt)?;
    refuses::<Runs>(&rt)
}
