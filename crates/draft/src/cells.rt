// Entering the cells of the latest table.
ghost use Rattle.std.specs.Prelude.{◌≡◌, ◌<◌, ◌≤◌, ◌++◌, filter_map, length};
ghost use Rattle.rules.specs.Seen.{NotesBytes};
ghost use Rattle.tables.specs.Reads.{cell_fields, table_scope};
ghost use Rattle.draft.specs.Entries.{EntersCells, cell_lines, scope_so_far};
ghost use Rattle.draft.specs.Lists.{distinct, marked_field, pairs};
ghost use Rattle.draft.specs.Memory.{held};
ghost use Rattle.draft.specs.Reading.{Checked};

use crate::fault::{DraftFault, Refused};
use crate::memory::Memory;
use crate::pairs::{Pairs, cell_of, marked_field};
use crate::reading::{all_known, any_bad_mark, write_from};
use crate::state::Draft;
use rows::Row;
use rules::marks::Seen;
use tables::record::{Axis, Cell};

// Notes the fields of cells, and says whether they are all new. A loop, since it goes over all cells
// that were entered before, each time that cells are entered.
fn note_cells(cells: &[Cell], seen: &mut Seen) -> bool
    ensures { NotesBytes (cell_fields cells.now) 256 seen.old seen.new result }
{
    for cell in cells {
        if let Cell::Field(field) = *cell {
            if !seen.note(field) {
                return false;
            }
        }
    }
    true
}

// Whether x, the axes, the fields among the cells, and those among the pairs of a list are all
// different fields.
fn scope_is_apart(x: u8, axes: &[Axis], cells: &[Cell], list: &[u8]) -> bool
    ensures { result ≡ distinct (table_scope x axes.now cells.now ++ filter_map marked_field (pairs list.now)) }
{
    let mut seen = Seen::none();
    seen.note(x);
    if !seen.note_all(axes.iter().map(|axis| axis.field), 256) {
        return false;
    }
    if !note_cells(cells, &mut seen) {
        return false;
    }
    seen.note_all(Pairs(list).filter_map(marked_field), 256)
}

impl Draft {
    // Whether the fields among new cells are different from each other and from those that the
    // latest table names already.
    fn cells_stay_apart(&self, memory: &Memory, list: &[u8]) -> bool
        requires some { 0 < self.now.tables }
        requires heads { self.now.tables ≤ length memory.now.heads.now }
        requires cells { self.now.filled ≤ length memory.now.cells.now }
        ensures { result ≡ distinct (scope_so_far self.now (held memory.now) ++ filter_map marked_field (pairs list.now)) }
    {
        let head = memory.heads[self.tables - 1];
        let axis_count = head.axis_count.min(4);
        let axes = &head.axes[0..axis_count];
        let next = self.filled;
        let first = head.first.min(next);
        scope_is_apart(head.x, axes, &memory.cells[first..next], list)
    }

    // What is wrong with entering cells, if anything is.
    fn check_cells<R: Row>(
        &self,
        rows: &[R],
        memory: &Memory,
        list: &[u8],
    ) -> Result<(), DraftFault>
        ensures { Checked (cell_lines self.now (length rows.now) (held memory.now) list.now) tt result }
    {
        if self.is_short(rows.len(), memory) {
            return Err(DraftFault::Short);
        }
        let lacking = self.lacking_cells();
        if self.tables == 0 || lacking == 0 || list.len() / 2 > lacking {
            return Err(DraftFault::Misplaced);
        }
        if list.is_empty() || list.len() % 2 == 1 || any_bad_mark(list) {
            return Err(DraftFault::Shape);
        }
        if !all_known(Pairs(list).filter_map(marked_field), self.fields) {
            return Err(DraftFault::NoSuchField);
        }
        if !self.cells_stay_apart(memory, list) {
            return Err(DraftFault::Twice);
        }
        Ok(())
    }

    // Enters cells for the latest table: pairs of a mark and a number, which is a constant where
    // the mark is 0 and a field where it is 1.
    pub fn enter_cells<R: Row>(
        self,
        rows: &[R],
        memory: &mut Memory,
        cells: &[u8],
    ) -> Result<Draft, Refused>
        ensures { EntersCells self cells.now (length rows.now) (held memory.old) (held memory.new) result }
    {
        if let Err(fault) = self.check_cells(rows, memory, cells) {
            return Err(Refused { draft: self, fault });
        }
        write_from(memory.cells, self.filled, Pairs(cells).map(cell_of));
        Ok(Draft {
            filled: self.filled + cells.len() / 2,
            ..self
        })
    }
}
