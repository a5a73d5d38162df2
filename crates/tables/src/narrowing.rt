// Narrowing the rows of one table.
ghost use Rattle.std.specs.Prelude.{◌≡◌, ℕ, ◌<◌, true, false, ◌&&◌, map, length, Decides, nat_lt, slice_index_or};
ghost use Rattle.rules.specs.Writes.{Written, OwnRows};
ghost use Rattle.rules.specs.Books.{Narrowing, sets};
ghost use Rattle.rules.specs.Rules.{In};
ghost use Rattle.tables.specs.Left.{IsOnly, axes_left, cut_scope, table_left};
ghost use Rattle.tables.specs.Reads.{cell_fields};
ghost use Rattle.tables.specs.Views.{rule_of, scope_of};

use crate::found::{Hits, Marks, Rests};
use crate::record::Cell;
use crate::scan::Pass;
use crate::view::Table;
use rows::Row;
use rules::writing::{clear, replace};

// The values of a row that are marked.
fn marked<R: Row>(row: R, marks: &[bool; 256]) -> R
    ensures { (v : ℕ) → R.Row.values result v ≡ (R.Row.values row v && (nat_lt v 256 && slice_index_or marks.now v false)) }
{
    let mut left = row;
    for (v, marked) in (0..R::SPAN).zip(marks) {
        if !*marked {
            left = left.without(v as u8);
        }
    }
    left
}

// The field of the only hit; none if there is another number of hits, or it holds no field.
fn only_field(hits: Hits) -> Option<u8>
    ensures { IsOnly hits result }
{
    match hits {
        Hits::Only(cell) => cell.field(),
        Hits::Nothing | Hits::Several => None,
    }
}

impl<'a> Table<'a> {
    // Whether each field among the cells has a value.
    fn is_filled<R: Row>(&self, rows: &[R]) -> bool
        requires { (f : ℕ) → In f (cell_fields self.now.cells.now) → f < length rows.now }
        ensures { Decides result ((f : ℕ) → In f (cell_fields self.now.cells.now) → (v : ℕ) × (sets R.Row.values rows.now f v ≡ true)) }
    {
        for cell in self.cells {
            if let Cell::Field(f) = cell {
                if rows[*f as usize].is_empty() {
                    return false;
                }
            }
        }
        true
    }

    // Keeps in the row of each axis the indices that are marked.
    fn cut_axes<R: Row>(&self, marks: &Marks, rows: &mut [R]) -> bool
        requires { OwnRows (map (λ ax. ax.field) self.now.axes.now) (length rows.old) }
        ensures { Written R.Row.values (axes_left marks.now (sets R.Row.values rows.old) (sets R.Row.values rows.old) self.now.axes.now 0) (map (λ ax. ax.field) self.now.axes.now) (length (map (λ ax. ax.field) self.now.axes.now)) rows.old rows.new result }
    {
        let mut changed = false;
        for (axis, indices) in self.axes.iter().zip(marks.iter()) {
            let field = axis.field as usize;
            let left = marked(rows[field], indices);
            changed |= replace(rows, field, left);
        }
        changed
    }

    // Narrows the rows of a table in which every field cell has a value, and that has a hit.
    fn keep_supported<R: Row>(&self, rests: &Rests<R>, hits: Hits, rows: &mut [R]) -> bool
        requires { OwnRows (cut_scope self.now.x self.now.axes.now hits) (length rows.old) }
        ensures { Written R.Row.values (table_left R.Row.values rests.now hits (sets R.Row.values rows.old) self.now.x self.now.axes.now) (cut_scope self.now.x self.now.axes.now hits) (length (cut_scope self.now.x self.now.axes.now hits)) rows.old rows.new result }
    {
        let x = self.x as usize;
        let row = rows[x];
        let mut changed = replace(rows, x, row.minus(rests.x));
        changed |= self.cut_axes(&rests.axes, rows);
        if let Some(f) = only_field(hits) {
            let left = rows[f as usize].common(row);
            changed |= replace(rows, f as usize, left);
        }
        changed
    }

    // Narrows the rows of the table, and says whether some set changed.
    pub(crate) fn narrow<R: Row>(&self, rows: &mut [R]) -> bool
        requires { OwnRows (scope_of self.now) (length rows.old) }
        ensures { Narrowing R.Row.values (rule_of self.now) rows.old rows.new result }
    {
        let row = rows[self.x as usize];
        let mut rests = Rests {
            x: row,
            axes: [[false; 256]; 4],
        };
        let hits = Pass { x: row, rows }.scan(self.axes, 0, self.cells, &mut rests);
        if hits == Hits::Nothing || !self.is_filled(rows) {
            return clear(rows, self.scope());
        }
        self.keep_supported(&rests, hits, rows)
    }
}
