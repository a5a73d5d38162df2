// The planner's own book: the tables and frames of a draft, as a view of its memory.
ghost use Rattle.std.specs.Prelude.{◌≡◌};
ghost use Rattle.draft.specs.Entries.{ViewsOwn};
ghost use Rattle.draft.specs.Memory.{held};

use crate::fault::DraftFault;
use crate::memory::Memory;
use crate::state::Draft;
use frames::record::Frames;
use rules::pair::Joined;
use tables::record::Tables;

impl Draft {
    // The rules of the complete tables, then those of the frames, each in order of entry. Refused
    // where the memory is less than what the entries fill.
    pub fn own_book<'m>(
        &self,
        memory: &'m Memory,
    ) -> Result<Joined<Tables<'m>, Frames<'m>>, DraftFault>
        ensures { ViewsOwn self.now (held memory.now) result }
    {
        if self.is_short(self.fields, memory) {
            return Err(DraftFault::Short);
        }
        let complete = if self.lacking_cells() == 0 {
            self.tables
        } else {
            self.tables.saturating_sub(1)
        };
        Ok(Joined {
            first: Tables {
                heads: &memory.heads[0..complete],
                cells: &memory.cells[0..self.cells],
            },
            second: Frames {
                frames: &memory.frames[0..self.frames],
                parts: &memory.parts[0..self.parts],
            },
        })
    }
}
