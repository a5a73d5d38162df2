// A frame that makes sense, and how rows are narrowed by it.
//
// The values of a part that can still run are those that fit beside the least values of all the
// others, so one pass over the parts finds the room that is left, and one cuts each row to it.
ghost use Rattle.std.specs.Prelude.{◌<◌, ◌≤◌, length};

use crate::record::Part;
use rows::{OrderedRow, Row};
use rules::fault::NarrowFault;
use rules::marks::Seen;
use rules::writing::{clear, replace};

// The parts of a frame, 1 to 64 of them, and the limit on the sum of all their values and loads.
#[derive(Clone, Copy)]
pub(crate) struct Bounded<'a> {
    pub parts: &'a [Part],
    pub limit: u16,
    ghost some: { 0 < length parts.now },
    ghost few: { length parts.now ≤ 64 },
}

impl Bounded<'_> {
    ghost use Rattle.std.specs.Prelude.{◌≡◌, ℕ, ◌≤◌, length, Decides, MatchOption};
    ghost use Rattle.rules.specs.Writes.{Written, OwnRows};
    ghost use Rattle.rules.specs.Books.{sets, Narrows};
    ghost use Rattle.rules.specs.Rules.{LawfulRule};
    ghost use Rattle.frames.specs.Parts.{fields, Summed, OneEmpty, cut};
    ghost use Rattle.frames.specs.Reads.{sum_rule};

    // Whether the parts name only fields below n, and none twice.
    fn is_lawful(&self, n: usize) -> bool
        ensures { Decides result (LawfulRule n (sum_rule self.now.parts.now self.now.limit)) }
    {
        Seen::none().note_all(self.parts.iter().map(|part| part.field), n)
    }

    // The sum of all loads and of the least value of each row; none where a row has no value.
    fn least_sum<R: OrderedRow>(&self, rows: &[R]) -> Option<u32>
        requires { OwnRows (fields self.now.parts.now) (length rows.now) }
        ensures { MatchOption result (OneEmpty (sets R.Row.values rows.now) self.now.parts.now) (Summed (sets R.Row.values rows.now) self.now.parts.now) }
    {
        let mut sum = 0u32;
        for part in self.parts {
            let least = rows[part.field as usize].least()?;
            sum += part.load as u32 + least as u32;
        }
        Some(sum)
    }

    // Cuts the row of each part to the values at most `room` above its least, and says whether one
    // lost a value.
    fn cut_rows<R: OrderedRow>(&self, room: u32, rows: &mut [R]) -> bool
        requires { OwnRows (fields self.now.parts.now) (length rows.old) }
        ensures { Written R.Row.values (cut (sets R.Row.values rows.old) room) (fields self.now.parts.now) (length (fields self.now.parts.now)) rows.old rows.new result }
    {
        let step = room.min(255) as u8;
        let mut changed = false;
        for part in self.parts {
            let row = rows[part.field as usize];
            let top = row.least().unwrap_or(0).saturating_add(step);
            changed |= replace(rows, part.field as usize, row.at_most(top));
        }
        changed
    }

    // Narrows the rows of n fields, as the frame does at any place that a book reaches.
    pub(crate) fn narrow<R: OrderedRow>(
        &self,
        n: usize,
        rows: &mut [R],
    ) -> Result<bool, NarrowFault>
        ensures { (k : ℕ) → k ≤ 1023 → Narrows R.Row.values (sum_rule self.now.parts.now self.now.limit) k n rows.old rows.new result }
    {
        if n > rows.len() || !self.is_lawful(n) {
            return Err(NarrowFault::Unfit);
        }
        let limit = self.limit as u32;
        match self.least_sum(rows) {
            Some(sum) if sum <= limit => Ok(self.cut_rows(limit - sum, rows)),
            _ => Ok(clear(rows, self.parts.iter().map(|part| part.field))),
        }
    }
}
