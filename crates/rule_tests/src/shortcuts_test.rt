// Three shortcuts that narrow a table wrongly, each on a table where it shows. Field 0 is looked up
// from field 1 by an extent of 2, and field 2 is a cell.
use crate::small::{holds, rows_of};
use bits::record::Bits;
use rows::Row;
use rules::Book;
use runs::record::Runs;
use std::process::Abort;
use std::test::Fail;
use tables::record::{Axis, Cell, Head, Tables};

// The rows of some shapes, narrowed, have just the values of others.
fn leaves<R: Row>(
    rt: &(impl Abort + AllocGlobal),
    case: &str,
    before: [u8; 3],
    after: [u8; 3],
) -> Result<(), Fail> {
    let index = Axis {
        field: 1,
        extent: 2,
    };
    let heads = [Head {
        x: 0,
        axes: [index, index, index, index],
        axis_count: 1,
        first: 0,
    }];
    let cells = [Cell::Constant(3), Cell::Field(2)];
    let book = Tables {
        heads: &heads,
        cells: &cells,
    };
    let mut rows = rows_of::<R>(rt.alloc(), before)?;
    book.narrow(0, 3, rows.as_mut_slice())?;
    holds(rt, case, rows.as_slice(), after);
    Ok(())
}

fn both_kinds(
    rt: &(impl Abort + AllocGlobal),
    case: &str,
    before: [u8; 3],
    after: [u8; 3],
) -> Result<(), Fail> {
    leaves::<Bits>(rt, case, before, after)?;
    leaves::<Runs>(rt, case, before, after)
}

// While both cells can be selected, the field cell keeps a value that field 0 does not have.
#[test]
fn a_field_cell_is_not_cut_while_two_indices_are_left(rt: HostRuntime) -> Result<(), Fail> {
    both_kinds(
        &rt,
        "two indices are left",
        [0b1100, 0b11, 0b110],
        [0b1100, 0b11, 0b110],
    )?;
    both_kinds(
        &rt,
        "one index is left",
        [0b1100, 0b10, 0b110],
        [0b100, 0b10, 0b100],
    )
}

// No line is left, though the one index that is open selects the constant.
#[test]
fn an_empty_cell_that_is_not_selected_ends_every_line(rt: HostRuntime) -> Result<(), Fail> {
    both_kinds(&rt, "the cell has no value", [0b1000, 0b1, 0], [0, 0, 0])?;
    both_kinds(
        &rt,
        "the cell has a value",
        [0b1000, 0b1, 0b1],
        [0b1000, 0b1, 0b1],
    )
}

// The extent is no index, and neither is what lies above it.
#[test]
fn an_index_at_its_extent_goes(rt: HostRuntime) -> Result<(), Fail> {
    both_kinds(
        &rt,
        "an index is left",
        [0b1000, 0b101, 0b1],
        [0b1000, 0b1, 0b1],
    )?;
    both_kinds(&rt, "no other index", [0b1000, 0b1000_0100, 0b1], [0, 0, 0])
}
