// What a table is kept as.
ghost use Rattle.std.specs.Prelude.{◌≡◌};
ghost use Rattle.tables.specs.Cells.{held_field};

// An axis: the field that is the index, and how many indices there are.
#[derive(Clone, Copy, PartialEq, Eq, Debug)]
pub struct Axis {
    pub field: u8,
    pub extent: u8,
}

// A cell holds a value of its own, or that of a field.
#[derive(Clone, Copy, PartialEq, Eq, Debug)]
pub enum Cell {
    Constant(u8),
    Field(u8),
}

impl Cell {
    // The field that the cell holds, if it holds one.
    pub fn field(self) -> Option<u8>
        ensures { result ≡ held_field self }
    {
        match self {
            Cell::Constant(_) => None,
            Cell::Field(f) => Some(f),
        }
    }
}

// A table's head: the field that is looked up, its axes, of which the first `axis_count` are read,
// and where its cells begin.
#[derive(Clone, Copy, PartialEq, Eq, Debug)]
pub struct Head {
    pub x: u8,
    pub axes: [Axis; 4],
    pub axis_count: usize,
    pub first: usize,
}

// The tables of a sheet, in memory that is lent.
#[derive(Clone, Copy, PartialEq, Eq, Debug)]
pub struct Tables<'a> {
    pub heads: &'a [Head],
    pub cells: &'a [Cell],
}
