// Frames of three parts.
use crate::small::{leaves_listed, refuses};
use bits::record::Bits;
use frames::record::{Frame, Frames, Part};
use rows::Row;
use runs::record::Runs;
use std::process::Abort;
use std::test::Fail;

// One frame, with loads of 6 in all, leaves in rows of either kind the lines whose sum is at most
// the limit.
fn narrows(rt: &(impl Abort + AllocGlobal), limit: u16) -> Result<(), Fail> {
    let frames = [Frame {
        first: 1,
        count: 3,
        limit,
    }];
    let parts = [
        Part { field: 9, load: 9 },
        Part { field: 0, load: 1 },
        Part { field: 2, load: 2 },
        Part { field: 1, load: 3 },
    ];
    let book = Frames {
        frames: &frames,
        parts: &parts,
    };
    let allows = |a: u8, b: u8, c: u8| 6 + a as u16 + b as u16 + c as u16 <= limit;
    leaves_listed::<Bits, _, _>(rt, &book, &allows)?;
    leaves_listed::<Runs, _, _>(rt, &book, &allows)
}

#[test]
fn frames_leave_what_enumeration_leaves(rt: HostRuntime) -> Result<(), Fail> {
    for limit in 0..30u16 {
        narrows(&rt, limit)?;
    }
    Ok(())
}

// A frame that does not fit is refused, and its rows keep their sets.
fn frame_refused(rt: &impl Abort, case: &str, frame: Frame, k: usize, n: usize) {
    let frames = [frame];
    let parts = [
        Part { field: 0, load: 0 },
        Part { field: 1, load: 0 },
        Part { field: 0, load: 0 },
    ];
    let book = Frames {
        frames: &frames,
        parts: &parts,
    };
    let rows = [Bits::make(3, 9), Bits::make(4, 8)];
    refuses(rt, case, &book, k, n, rows, [7, 5])
}

#[test]
fn a_frame_that_does_not_fit_is_refused(rt: HostRuntime) {
    let good = Frame {
        first: 0,
        count: 2,
        limit: 0,
    };
    frame_refused(&rt, "past the end", good, 1, 2);
    frame_refused(&rt, "above 1,023", good, 1024, 2);
    frame_refused(&rt, "too few rows", good, 0, 3);
    frame_refused(&rt, "a field not below n", good, 0, 1);
    let wide = Frame { limit: 9, ..good };
    frame_refused(&rt, "a field twice", Frame { count: 3, ..wide }, 0, 2);
    frame_refused(&rt, "no part", Frame { count: 0, ..wide }, 0, 2);
    frame_refused(
        &rt,
        "parts past the memory",
        Frame { first: 2, ..wide },
        0,
        2,
    );
    let outside = Frame {
        first: 9,
        count: 1,
        ..wide
    };
    frame_refused(&rt, "parts outside the memory", outside, 0, 2)
}

// A row that has no value does not hide what stands behind it.
#[test]
fn a_field_twice_is_refused_behind_an_empty_row(rt: HostRuntime) {
    let frames = [Frame {
        first: 0,
        count: 3,
        limit: 9,
    }];
    let parts = [
        Part { field: 0, load: 0 },
        Part { field: 1, load: 0 },
        Part { field: 1, load: 0 },
    ];
    let book = Frames {
        frames: &frames,
        parts: &parts,
    };
    let rows = [Bits::make(1, 0), Bits::make(4, 8)];
    refuses(&rt, "behind an empty row", &book, 0, 2, rows, [0, 5])
}
