// Reading tables from lent memory.
ghost use Rattle.tables.specs.Views.{IsRoom, IsTable};

use crate::record::{Axis, Tables};
use crate::view::Table;

// The product of the extents; none if an extent is 0, or the product is above 1,024.
pub fn room_of(axes: &[Axis]) -> Option<usize>
    ensures { IsRoom axes.now result }
{
    let mut room = 1usize;
    for axis in axes {
        room *= axis.extent as usize;
        if room == 0 || room > 1024 {
            return None;
        }
    }
    Some(room)
}

impl<'a> Tables<'a> {
    // Table k; none if there is no such table, or it does not make sense.
    pub(crate) fn table(&self, k: usize) -> Option<Table<'a>>
        ensures { IsTable self.now k result }
    {
        let heads = self.heads;
        let head = heads.get(k)?;
        let axes = head.axes.get(..head.axis_count)?;
        if axes.is_empty() {
            return None;
        }
        let room = room_of(axes)?;
        let cells = self.cells.get(head.first..)?.get(..room)?;
        Some(Table {
            x: head.x,
            axes,
            cells,
        })
    }
}
