// One table of a book.
ghost use Rattle.std.specs.Prelude.{◌≡◌, ◌≤◌, true, length, slice_get};
ghost use Rattle.tables.specs.Reads.{room, positive, cell_fields};

use crate::record::{Axis, Cell};
use crate::scope::Scope;
use rules::marks::Seen;

// A table that makes sense: 1 to 4 axes, each with an index, and a cell for each choice of indices,
// at most 1,024.
#[derive(Clone, Copy)]
pub(crate) struct Table<'a> {
    pub x: u8,
    pub axes: &'a [Axis],
    pub cells: &'a [Cell],
    ghost some: { 1 ≤ length axes.now },
    ghost few: { length axes.now ≤ 4 },
    ghost extents: { positive axes.now ≡ true },
    ghost small: { room axes.now ≤ 1024 },
    ghost long: { length cells.now ≡ room axes.now },
}

// How many of the cells hold a field. This and the next are loops, since the lawfulness test asks
// for every place of every scope, and a chain takes longer.
fn field_count(cells: &[Cell]) -> usize
    ensures { result ≡ length (cell_fields cells.now) }
{
    let mut count = 0usize;
    for cell in cells {
        if let Cell::Field(_) = cell {
            count += 1;
        }
    }
    count
}

// The field of the place-th cell that holds one; none past the end.
fn cell_field(cells: &[Cell], place: usize) -> Option<u8>
    ensures { result ≡ slice_get (cell_fields cells.now) place }
{
    let mut left = place;
    for cell in cells {
        if let Cell::Field(f) = cell {
            if left == 0 {
                return Some(*f);
            }
            left -= 1;
        }
    }
    None
}

impl<'a> Table<'a> {
    ghost use Rattle.std.specs.Prelude.{Decides};
    ghost use Rattle.rules.specs.Rules.{LawfulRule};
    ghost use Rattle.tables.specs.Scopes.{fields_left};
    ghost use Rattle.tables.specs.Views.{scope_of, rule_of};

    // The fields that the table names.
    pub(crate) fn scope(&self) -> Scope<'a>
        ensures { fields_left result ≡ scope_of self.now }
    {
        Scope::of(self.x, self.axes, self.cells)
    }

    // How many fields the table names.
    pub(crate) fn field_total(&self) -> usize
        ensures { result ≡ length (scope_of self.now) }
    {
        1 + self.axes.len() + field_count(self.cells)
    }

    // The field at a place among those that the table names; none past the end.
    pub(crate) fn field(&self, place: usize) -> Option<u8>
        ensures { result ≡ slice_get (scope_of self.now) place }
    {
        let Some(behind_x) = place.checked_sub(1) else {
            return Some(self.x);
        };
        match behind_x.checked_sub(self.axes.len()) {
            Some(behind_axes) => cell_field(self.cells, behind_axes),
            None => self.axes.get(behind_x).map(|axis| axis.field),
        }
    }

    // Whether the table names only fields below n, and none twice.
    pub(crate) fn is_lawful(&self, n: usize) -> bool
        ensures { Decides result (LawfulRule n (rule_of self.now)) }
    {
        Seen::none().note_all(self.scope(), n)
    }
}
