// The scope of a table, field by field.
ghost use Rattle.std.specs.Prelude.{◌≡◌};
ghost use Rattle.std.specs.Iterator.{YieldsFirst, item_count};
ghost use Rattle.tables.specs.Reads.{table_scope};
ghost use Rattle.tables.specs.Scopes.{fields_left};

use crate::record::{Axis, Cell};
use std::slice::Iter;

// The field that is looked up, then those of the axes, then those of the cells that hold one.
#[derive(Clone, Drop)]
pub struct Scope<'a> {
    x: Option<u8>,
    axes: Iter<'a, Axis>,
    cells: Iter<'a, Cell>,
}

impl<'a> Scope<'a> {
    // The whole scope of a table.
    pub fn of(x: u8, axes: &'a [Axis], cells: &'a [Cell]) -> Scope<'a>
        ensures { fields_left result ≡ table_scope x axes.now cells.now }
    {
        Scope {
            x: Some(x),
            axes: axes.iter(),
            cells: cells.iter(),
        }
    }
}

impl<'a> Iterator for Scope<'a> {
    type Item = u8;

    ghost next_gives = { YieldsFirst fields_left };

    ghost remaining = { item_count fields_left };

    fn next(&mut self) -> Option<u8> {
        if let Some(x) = self.x.take() {
            return Some(x);
        }
        if let Some(axis) = self.axes.next() {
            return Some(axis.field);
        }
        self.cells.find_map(|cell| cell.field())
    }
}
