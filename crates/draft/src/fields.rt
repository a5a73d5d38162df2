// A new draft, and entering fields.
ghost use Rattle.std.specs.Prelude.{◌≡◌, length};
ghost use Rattle.draft.specs.Entries.{EntersField, nothing, lacking, short, ready_lines, field_lines};
ghost use Rattle.draft.specs.Reading.{Checked};
ghost use Rattle.draft.specs.Memory.{held};

use crate::fault::{DraftFault, Refused};
use crate::memory::{Memory, Range};
use crate::state::Draft;
use rows::Row;

// At most this many fields.
const FIELDS: usize = 240;

impl Draft {
    // Nothing is entered yet.
    pub fn new() -> Draft
        ensures { result ≡ nothing }
    {
        Draft {
            fields: 0,
            tables: 0,
            cells: 0,
            filled: 0,
            frames: 0,
            parts: 0,
        }
    }

    // How many fields there are.
    pub fn field_count(&self) -> usize
        ensures { result ≡ self.now.fields }
    {
        self.fields
    }

    // How many cells the latest table lacks.
    pub fn lacking_cells(&self) -> usize
        ensures { result ≡ lacking self.now }
    {
        self.cells.saturating_sub(self.filled)
    }

    // Whether the rows are fewer than the fields, or the memory less than what the entries fill.
    pub(crate) fn is_short(&self, rows: usize, memory: &Memory) -> bool
        ensures { result ≡ short self.now rows (held memory.now) }
    {
        rows < self.fields
            || memory.ranges.len() < self.fields
            || memory.heads.len() < self.tables
            || memory.cells.len() < self.cells
            || memory.frames.len() < self.frames
            || memory.parts.len() < self.parts
    }

    // What is wrong with any entry but cells, if anything is: the lent places are too few, or cells lack.
    pub(crate) fn check_ready(&self, rows: usize, memory: &Memory) -> Result<(), DraftFault>
        ensures { Checked (ready_lines self.now rows (held memory.now)) tt result }
    {
        if self.is_short(rows, memory) {
            return Err(DraftFault::Short);
        }
        if self.lacking_cells() > 0 {
            return Err(DraftFault::Misplaced);
        }
        Ok(())
    }

    // What is wrong with entering a field, if anything is.
    fn check_field<R: Row>(
        &self,
        rows: &[R],
        memory: &Memory,
        lo: u8,
        hi: u8,
    ) -> Result<(), DraftFault>
        ensures { Checked (field_lines R.Row.SPAN self.now (length rows.now) (held memory.now) lo hi) tt result }
    {
        self.check_ready(rows.len(), memory)?;
        if lo > hi || hi as usize >= R::SPAN {
            return Err(DraftFault::BadRange);
        }
        if self.fields >= FIELDS
            || self.fields >= rows.len()
            || self.fields >= memory.ranges.len()
        {
            return Err(DraftFault::Full);
        }
        Ok(())
    }

    // Enters a field with the values from lo to hi: makes its row, and notes its range.
    pub fn enter_field<R: Row>(
        self,
        rows: &mut [R],
        memory: &mut Memory,
        lo: u8,
        hi: u8,
    ) -> Result<Draft, Refused>
        ensures { EntersField R.Row.values R.Row.SPAN self lo hi rows.old rows.new (held memory.old) (held memory.new) result }
    {
        if let Err(fault) = self.check_field(rows, memory, lo, hi) {
            return Err(Refused { draft: self, fault });
        }
        rows[self.fields] = R::make(lo, hi);
        memory.ranges[self.fields] = Range { lo, hi };
        Ok(Draft {
            fields: self.fields + 1,
            ..self
        })
    }
}
