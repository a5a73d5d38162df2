// Tables of four cells, by one axis and by two.
use crate::small::{every_shape, leaves_listed, narrowed, refuses};
use bits::record::Bits;
use rows::Row;
use runs::record::Runs;
use std::process::Abort;
use std::test::Fail;
use tables::record::{Axis, Cell, Head, Tables};

const NO_AXIS: Axis = Axis {
    field: 0,
    extent: 0,
};

// Field 0 looked up from field 1 by an extent of 4.
fn by_one_axis() -> Head {
    let axis = Axis {
        field: 1,
        extent: 4,
    };
    Head {
        x: 0,
        axes: [axis, NO_AXIS, NO_AXIS, NO_AXIS],
        axis_count: 1,
        first: 1,
    }
}

// Field 0 looked up from fields 1 and 2 by extents of 2.
fn by_two_axes() -> Head {
    let first = Axis {
        field: 1,
        extent: 2,
    };
    let second = Axis {
        field: 2,
        extent: 2,
    };
    Head {
        axes: [first, second, NO_AXIS, NO_AXIS],
        axis_count: 2,
        ..by_one_axis()
    }
}

// The place of the cell that a line selects by one axis, if its index is below the extent.
fn place_by_one(b: u8, _c: u8) -> Option<u8> {
    if b < 4 { Some(b) } else { None }
}

// The place of the cell that a line selects by two axes, if its indices are below their extents.
fn place_by_two(b: u8, c: u8) -> Option<u8> {
    if b < 2 && c < 2 {
        Some(2 * b + c)
    } else {
        None
    }
}

// The value of the cell at a place; a field cell holds field 2, whose value is c.
fn value_at(cells: &[Cell], place: Option<u8>, c: u8) -> Option<u8> {
    match cells.get(place? as usize)? {
        Cell::Constant(k) => Some(*k),
        Cell::Field(_) => Some(c),
    }
}

// The cells of a table, behind one that no table has.
fn memory(cells: [Cell; 4]) -> [Cell; 5] {
    let [a, b, c, d] = cells;
    [Cell::Field(9), a, b, c, d]
}

// A table leaves in rows of either kind the lines in which field 0 equals the cell that is selected.
fn narrows<F: Fn(u8, u8) -> Option<u8>>(
    rt: &(impl Abort + AllocGlobal),
    head: Head,
    place: F,
    cells: [Cell; 4],
) -> Result<(), Fail>
    requires { F.IsAlwaysCallable place }
{
    let heads = [head];
    let memory = memory(cells);
    let book = Tables {
        heads: &heads,
        cells: &memory,
    };
    let allows = |a: u8, b: u8, c: u8| value_at(&cells, place(b, c), c) == Some(a);
    leaves_listed::<Bits, _, _>(rt, &book, &allows)?;
    leaves_listed::<Runs, _, _>(rt, &book, &allows)
}

// A table that does not name field 2, which keeps its row, says whether it took values away.
fn tells(rt: &(impl Abort + AllocGlobal), head: Head, cells: [Cell; 4]) -> Result<(), Fail> {
    let heads = [head];
    let memory = memory(cells);
    let book = Tables {
        heads: &heads,
        cells: &memory,
    };
    every_shape(|shapes| {
        narrowed::<Bits, _>(rt, &book, shapes)?;
        narrowed::<Runs, _>(rt, &book, shapes)?;
        Ok(())
    })
}

// Field cells: one is selected among several, unselected though its row is empty, or alone.
#[test]
fn tables_of_one_axis_leave_what_enumeration_leaves(rt: HostRuntime) -> Result<(), Fail> {
    let (low, high, field) = (Cell::Constant(0), Cell::Constant(7), Cell::Field(2));
    let (four, nine, above) = (Cell::Constant(4), Cell::Constant(9), Cell::Constant(200));
    let head = by_one_axis();
    narrows(&rt, head, place_by_one, [field, low, high, low])?;
    narrows(&rt, head, place_by_one, [low, high, four, field])?;
    narrows(&rt, head, place_by_one, [above, field, nine, low])?;
    tells(&rt, head, [low, high, low, high])
}

#[test]
fn tables_of_two_axes_leave_what_enumeration_leaves(rt: HostRuntime) -> Result<(), Fail> {
    let (one, four) = (Cell::Constant(1), Cell::Constant(4));
    let (six, seven) = (Cell::Constant(6), Cell::Constant(7));
    let head = by_two_axes();
    narrows(&rt, head, place_by_two, [one, four, four, one])?;
    narrows(&rt, head, place_by_two, [one, six, four, seven])
}

// A table that does not fit is refused, and its rows keep their sets.
fn table_refused(rt: &impl Abort, case: &str, table: Head, k: usize, n: usize) {
    let heads = [table];
    let memory = [
        Cell::Constant(3),
        Cell::Field(2),
        Cell::Field(1),
        Cell::Constant(4),
        Cell::Constant(5),
    ];
    let book = Tables {
        heads: &heads,
        cells: &memory,
    };
    let rows = [Bits::make(3, 9), Bits::make(0, 8), Bits::make(1, 2)];
    refuses(rt, case, &book, k, n, rows, [7, 9, 2])
}

#[test]
fn a_table_that_does_not_fit_is_refused(rt: HostRuntime) {
    let axis = Axis {
        field: 1,
        extent: 2,
    };
    let good = Head {
        x: 0,
        axes: [axis, NO_AXIS, NO_AXIS, NO_AXIS],
        axis_count: 1,
        first: 0,
    };
    table_refused(&rt, "past the end", good, 1, 3);
    table_refused(&rt, "above 1,023", good, 1024, 3);
    table_refused(&rt, "too few rows", good, 0, 4);
    table_refused(&rt, "a field not below n", good, 0, 2);
    table_refused(&rt, "x is an axis too", Head { x: 1, ..good }, 0, 3);
    let on_a_field = Head { first: 1, ..good };
    table_refused(&rt, "an axis is a cell too", on_a_field, 0, 3);
    let by_axes = |axis_count: usize| Head { axis_count, ..good };
    table_refused(&rt, "no axis", by_axes(0), 0, 3);
    table_refused(&rt, "five axes", by_axes(5), 0, 3);
    table_refused(&rt, "an extent of 0", by_axes(2), 0, 3);
    table_refused(
        &rt,
        "cells past the memory",
        Head { first: 4, ..good },
        0,
        3,
    )
}
