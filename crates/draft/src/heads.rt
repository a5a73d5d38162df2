// Entering the head of a table.
ghost use Rattle.std.specs.Prelude.{◌≡◌, ◌≤◌, ◌∷◌, map, length};
ghost use Rattle.tables.specs.Reads.{room};
ghost use Rattle.draft.specs.Entries.{EntersHead, head_lines};
ghost use Rattle.draft.specs.Lists.{all_below, axis_of, distinct, first_field, four_axes, pair_count, pairs};
ghost use Rattle.draft.specs.Memory.{held};
ghost use Rattle.draft.specs.Reading.{Checked, IsRoomOf};

use crate::fault::{DraftFault, Refused};
use crate::memory::Memory;
use crate::pairs::{Pairs, axis_of, first_field};
use crate::reading::{all_known, write_from};
use crate::state::Draft;
use rows::Row;
use rules::marks::Seen;
use tables::reading::room_of;
use tables::record::{Axis, Head};

// At most this many tables, and cells in all of them.
const TABLES: usize = 64;

const CELLS: usize = 4096;

// An axis that is not read.
const NO_AXIS: Axis = Axis {
    field: 0,
    extent: 0,
};

// The pairs of a head as axes.
fn read_axes(list: &[u8]) -> [Axis; 4]
    requires { pair_count list.now ≤ 4 }
    ensures { result ≡ four_axes (map axis_of (pairs list.now)) }
{
    let mut axes = [NO_AXIS; 4];
    write_from(&mut axes, 0, Pairs(list).map(axis_of));
    axes
}

// How many cells a table over these axes has; none if the list makes no head.
fn head_room(list: &[u8]) -> Option<usize>
    ensures { IsRoomOf list.now result }
{
    let count = list.len() / 2;
    if list.len() % 2 == 1 || count == 0 || count > 4 {
        return None;
    }
    let axes = read_axes(list);
    room_of(&axes[0..count])
}

// Whether x and the axes are fields below n.
fn head_is_known(x: u8, list: &[u8], n: usize) -> bool
    ensures { result ≡ all_below n (x ∷ map first_field (pairs list.now)) }
{
    (x as usize) < n && all_known(Pairs(list).map(first_field), n)
}

// Whether x and the axes are all different fields.
fn head_is_apart(x: u8, list: &[u8]) -> bool
    ensures { result ≡ distinct (x ∷ map first_field (pairs list.now)) }
{
    let mut seen = Seen::none();
    seen.note(x) && seen.note_all(Pairs(list).map(first_field), 256)
}

impl Draft {
    // How many cells the table will have, or what is wrong with entering its head.
    fn room_for_head<R: Row>(
        &self,
        rows: &[R],
        memory: &Memory,
        x: u8,
        list: &[u8],
    ) -> Result<usize, DraftFault>
        ensures { Checked (head_lines self.now (length rows.now) (held memory.now) x list.now) (room (map axis_of (pairs list.now))) result }
    {
        self.check_ready(rows.len(), memory)?;
        let room = head_room(list).ok_or(DraftFault::Shape)?;
        let cells = self.cells.saturating_add(room);
        if self.tables >= TABLES
            || self.tables >= memory.heads.len()
            || cells > CELLS
            || cells > memory.cells.len()
        {
            return Err(DraftFault::Full);
        }
        if !head_is_known(x, list, self.fields) {
            return Err(DraftFault::NoSuchField);
        }
        if !head_is_apart(x, list) {
            return Err(DraftFault::Twice);
        }
        Ok(room)
    }

    // Enters the head of a table: x is looked up by the axes, pairs of a field and an extent. All
    // its cells count at once.
    pub fn enter_table<R: Row>(
        self,
        rows: &[R],
        memory: &mut Memory,
        x: u8,
        axes: &[u8],
    ) -> Result<Draft, Refused>
        ensures { EntersHead self x axes.now (length rows.now) (held memory.old) (held memory.new) result }
    {
        let room = match self.room_for_head(rows, memory, x, axes) {
            Ok(room) => room,
            Err(fault) => return Err(Refused { draft: self, fault }),
        };
        memory.heads[self.tables] = Head {
            x,
            axes: read_axes(axes),
            axis_count: axes.len() / 2,
            first: self.cells,
        };
        Ok(Draft {
            tables: self.tables + 1,
            cells: self.cells + room,
            ..self
        })
    }
}
