// A row's values as runs of neighbours, lowest first.
ghost use Rattle.std.specs.Prelude.{◌≡◌, ℕ, ◌&&◌, nat_le, Some};
ghost use Rattle.std.specs.Iterator.{YieldsFirst, item_count};
ghost use Rattle.rows.specs.Runs.{NextRun, runs_from, runs_left, list_text};

use crate::OrderedRow;
use crate::run::Run;
use std::fmt;

// The values at or above `from`.
fn rest_of<R: OrderedRow>(row: R, from: usize) -> R
    ensures { (v : ℕ) → R.Row.values result v ≡ (R.Row.values row v && nat_le from v) }
{
    match from.checked_sub(1) {
        Some(under) => row.minus(R::make(0, under.min(R::SPAN - 1) as u8)),
        None => row,
    }
}

// The lowest of the row's longest runs of neighbouring values that lies at or above `from`.
pub fn next_run<R: OrderedRow>(row: R, from: usize) -> Option<Run>
    ensures { NextRun (R.Row.values row) from result }
{
    let low = rest_of(row, from).least()?;
    let last = (R::SPAN - 1) as u8;
    let gap = R::make(low, last).minus(row).least();
    let high = gap.map_or(last, |gap| gap - 1);
    Some(Run { low, high })
}

// The runs of a row that lie at or above `from`.
#[derive(Drop)]
pub struct RowRuns<R> {
    row: R,
    from: usize,
}

// Every longest run of the row, lowest first.
pub fn runs_of<R: OrderedRow>(row: R) -> RowRuns<R>
    ensures { runs_left R.Row.SPAN R.Row.values result ≡ runs_from R.Row.SPAN 0 (R.Row.values row) }
{
    RowRuns { row, from: 0 }
}

impl<R: OrderedRow> Iterator for RowRuns<R> {
    type Item = Run;

    ghost next_gives = { YieldsFirst (runs_left R.Row.SPAN R.Row.values) };

    ghost remaining = { item_count (runs_left R.Row.SPAN R.Row.values) };

    fn next(&mut self) -> Option<Run> {
        let run = next_run(self.row, self.from)?;
        // The number after a run is in no run, so the next one begins behind it.
        self.from = run.high as usize + 2;
        Some(run)
    }
}

// A row as it is printed: its runs, lowest first, with a space between each two, as `3-7 12`.
#[derive(Clone, Copy)]
pub struct Listed<R>(pub R);

impl<R: OrderedRow> fmt::Display for Listed<R> {
    ghost output = { λ list. Some (list_text (runs_from R.Row.SPAN 0 (R.Row.values list.0))) };

    fn fmt<W: fmt::Write>(&self, f: &mut fmt::Formatter<W>) -> fmt::Result {
        let mut runs = runs_of(self.0);
        if let Some(first) = runs.next() {
            write!(f, "{first}")?;
        }
        for run in runs {
            write!(f, " {run}")?;
        }
        Ok(())
    }
}
