// One pass over the cells that open index values select.
ghost use Rattle.std.specs.Prelude.{◌≡◌, ℕ, ◌<◌, [], ◌∷◌, length, if◌then◌else◌};
ghost use Rattle.rules.specs.Books.{sets};
ghost use Rattle.rules.specs.Rules.{In};
ghost use Rattle.tables.specs.declared.found.Hits.TheVariants.{Nothing, Only};
ghost use Rattle.tables.specs.Reads.{cell_fields};
ghost use Rattle.tables.specs.Scans.{Reaches, Swept, both_hits, NotedHits, Scannable};

use crate::found::{Hits, Marks, Rests};
use crate::record::{Axis, Cell};
use rows::Row;

// The hits of two parts of a table together.
fn both(first: Hits, second: Hits) -> Hits
    ensures { result ≡ both_hits first second }
{
    match (first, second) {
        (Hits::Nothing, _) => second,
        (_, Hits::Nothing) => first,
        _ => Hits::Several,
    }
}

// Marks the index d of the axis at a level, if there is a hit at it.
fn note(marks: &mut Marks, level: usize, d: u8, hits: Hits)
    requires { level < 4 }
    ensures { NotedHits level d hits marks.old marks.new }
{
    if hits != Hits::Nothing {
        let row = &mut marks[level];
        row[d as usize] = true;
    }
}

// A cell that meets x is the only hit of itself.
fn hit_if(meets: bool, cell: Cell) -> Hits
    ensures { result ≡ (if meets then Only cell else Nothing) }
{
    if meets {
        Hits::Only(cell)
    } else {
        Hits::Nothing
    }
}

// What a pass goes by: the row of x, and the rows of all fields.
#[derive(Clone, Copy)]
pub(crate) struct Pass<'a, R> {
    pub x: R,
    pub rows: &'a [R],
}

impl<'a, R: Row> Pass<'a, R> {
    // One cell: its values are supported in x, and it is a hit if it meets x.
    fn visit(&self, cell: Cell, rests: &mut Rests<R>) -> Hits
        requires { (f : ℕ) → In f (cell_fields (cell ∷ [])) → f < length self.now.rows.now }
        ensures { (level : ℕ) → Swept R.Row.values (sets R.Row.values self.now.rows.now) (R.Row.values self.now.x) level 0 (Reaches (sets R.Row.values self.now.rows.now) [] (cell ∷ [])) rests.old rests.new result }
    {
        match cell {
            Cell::Constant(k) => {
                rests.x = rests.x.without(k);
                hit_if(self.x.has(k), cell)
            }
            Cell::Field(f) => {
                let row = self.rows[f as usize];
                rests.x = rests.x.minus(row);
                hit_if(self.x.meets(row), cell)
            }
        }
    }

    // The cells of some axes, of which the first is at a level: block after block of that axis, as
    // far as its index is open.
    pub(crate) fn scan(
        &self,
        axes: &[Axis],
        level: usize,
        cells: &[Cell],
        rests: &mut Rests<R>,
    ) -> Hits
        requires { Scannable level axes.now cells.now (length self.now.rows.now) }
        ensures { Swept R.Row.values (sets R.Row.values self.now.rows.now) (R.Row.values self.now.x) level (length axes.now) (Reaches (sets R.Row.values self.now.rows.now) axes.now cells.now) rests.old rests.new result }
    {
        let Some((axis, inner)) = axes.split_first() else {
            return self.visit(cells[0], rests);
        };
        let open = self.rows[axis.field as usize];
        let size = cells.len() / axis.extent as usize;
        let mut hits = Hits::Nothing;
        for (d, block) in (0..axis.extent).zip(cells.chunks_exact(size)) {
            if open.has(d) {
                let more = self.scan(inner, level + 1, block, rests);
                note(&mut rests.axes, level, d, more);
                hits = both(hits, more);
            }
        }
        hits
    }
}
