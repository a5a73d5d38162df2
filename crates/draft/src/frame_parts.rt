// Entering frames.
ghost use Rattle.std.specs.Prelude.{length};
ghost use Rattle.draft.specs.Entries.{EntersFrame, frame_lines};
ghost use Rattle.draft.specs.Memory.{held};
ghost use Rattle.draft.specs.Reading.{Checked};

use crate::fault::{DraftFault, Refused};
use crate::memory::Memory;
use crate::pairs::{Pairs, first_field, part_of};
use crate::reading::{all_apart, all_known, write_from};
use crate::state::Draft;
use frames::record::Frame;
use rows::Row;

// At most this many frames, and parts in all of them.
const FRAMES: usize = 32;

const PARTS: usize = 1024;

impl Draft {
    // What is wrong with entering a frame, if anything is.
    fn check_frame<R: Row>(
        &self,
        rows: &[R],
        memory: &Memory,
        list: &[u8],
    ) -> Result<(), DraftFault>
        ensures { Checked (frame_lines self.now (length rows.now) (held memory.now) list.now) tt result }
    {
        self.check_ready(rows.len(), memory)?;
        let count = list.len() / 2;
        if list.len() % 2 == 1 || count == 0 || count > 64 {
            return Err(DraftFault::Shape);
        }
        let parts = self.parts.saturating_add(count);
        if self.frames >= FRAMES
            || self.frames >= memory.frames.len()
            || parts > PARTS
            || parts > memory.parts.len()
        {
            return Err(DraftFault::Full);
        }
        if !all_known(Pairs(list).map(first_field), self.fields) {
            return Err(DraftFault::NoSuchField);
        }
        if !all_apart(Pairs(list).map(first_field)) {
            return Err(DraftFault::Twice);
        }
        Ok(())
    }

    // Enters a frame: its parts, pairs of a field and a load, with all values and loads come to at
    // most the limit.
    pub fn enter_frame<R: Row>(
        self,
        rows: &[R],
        memory: &mut Memory,
        limit: u16,
        parts: &[u8],
    ) -> Result<Draft, Refused>
        ensures { EntersFrame self limit parts.now (length rows.now) (held memory.old) (held memory.new) result }
    {
        if let Err(fault) = self.check_frame(rows, memory, parts) {
            return Err(Refused { draft: self, fault });
        }
        let count = parts.len() / 2;
        write_from(memory.parts, self.parts, Pairs(parts).map(part_of));
        memory.frames[self.frames] = Frame {
            first: self.parts,
            count,
            limit,
        };
        Ok(Draft {
            frames: self.frames + 1,
            parts: self.parts + count,
            ..self
        })
    }
}
