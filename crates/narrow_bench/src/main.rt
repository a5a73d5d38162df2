// How long a narrowing takes, as a multiple of the time to walk the same cells or parts and do
// nothing with them. The figures go to standard error, since they differ from run to run.
#![tactic(auto)]

use bits::record::Bits;
use frames::record::{Frame, Frames, Part};
use rows::{OrderedRow, Row};
use rules::Book;
use runs::record::Runs;
use std::alloc::{AllocError, Global};
use std::io;
use std::time::Instant;
use tables::record::{Axis, Cell, Head, Tables};

const TURNS: u64 = 2000;

// Rows that are all made from 0 to 31.
fn rows_of<R: OrderedRow>(heap: Global, count: usize) -> Result<Vec<R>, AllocError> {
    (0..count).map(|_| R::make(0, 31)).collect(heap)
}

// The nanoseconds of many narrowings by the first rule of a book.
fn narrowings<R: OrderedRow, B: Book<R>>(
    rt: &HostRuntime,
    book: &B,
    count: usize,
) -> io::Result<u128> {
    let mut rows = rows_of::<R>(rt.alloc(), count)?;
    let start = Instant::now(rt)?;
    for _ in 0..TURNS {
        let _ = book.narrow(0, count, rows.as_mut_slice());
    }
    Ok(start.elapsed(rt)?.as_nanos())
}

// The nanoseconds of as many walks over cells or parts, with what their numbers come to. Each step
// needs the one before, so the compiler can leave out none of them.
fn walks<T, F: Fn(&T) -> u8>(rt: &HostRuntime, items: &[T], number: F) -> io::Result<(u128, u64)>
    requires { F.IsAlwaysCallable number }
{
    let start = Instant::now(rt)?;
    let mut sum = 0u64;
    for _ in 0..TURNS {
        for item in items {
            sum = sum.rotate_left(1).wrapping_add(number(item) as u64);
        }
    }
    Ok((start.elapsed(rt)?.as_nanos(), sum))
}

// One line: nanoseconds for one narrowing, and how many walks that is.
fn tell(rt: &HostRuntime, kind: &str, narrowing: u128, walk: u128) -> io::Result<()> {
    let each = narrowing / TURNS as u128;
    let ratio = narrowing / walk.max(1);
    eprintln!(rt; "  {kind}: {each} ns, {ratio} walks")
}

// What narrowing by the first rule of a book takes in both kinds of row.
fn both_kinds<B: Book<Bits> + Book<Runs>>(
    rt: &HostRuntime,
    what: &str,
    book: &B,
    (walk, sum): (u128, u64),
) -> io::Result<()> {
    let each = walk / TURNS as u128;
    eprintln!(rt; "{what}: a walk takes {each} ns, all walks come to {sum}")?;
    tell(rt, "bits", narrowings::<Bits, B>(rt, book, 240)?, walk)?;
    tell(rt, "runs", narrowings::<Runs, B>(rt, book, 240)?, walk)
}

// Field 0 looked up from fields 1 and 2, by equal extents.
fn head(extent: u8) -> Head {
    Head {
        x: 0,
        axes: [1, 2, 1, 2].map(|field| Axis { field, extent }),
        axis_count: 2,
        first: 0,
    }
}

fn table(rt: &HostRuntime, what: &str, extent: u8, cells: &[Cell]) -> io::Result<()> {
    let heads = [head(extent)];
    let book = Tables {
        heads: &heads,
        cells,
    };
    let walk = walks(rt, cells, |cell| match *cell {
        Cell::Constant(k) | Cell::Field(k) => k,
    })?;
    both_kinds(rt, what, &book, walk)
}

// A constant for the place of a cell, below 32.
fn constant(place: u32) -> Cell {
    Cell::Constant((place % 32) as u8)
}

fn constants(rt: &HostRuntime) -> io::Result<()> {
    let cells: Vec<Cell> = (0..1024).map(constant).collect(rt.alloc())?;
    table(rt, "a table of 32 by 32 constants", 32, cells.as_slice())
}

// As many field cells as 32 by 32 can have, since no field may stand twice; the rest are constants.
fn mixed_cells(rt: &HostRuntime) -> io::Result<()> {
    let cells: Vec<Cell> = (3..240)
        .map(Cell::Field)
        .chain((237..1024).map(constant))
        .collect(rt.alloc())?;
    table(
        rt,
        "a table of 32 by 32 cells, 237 of them fields",
        32,
        cells.as_slice(),
    )
}

// A table of nothing but field cells.
fn field_cells(rt: &HostRuntime) -> io::Result<()> {
    let cells: Vec<Cell> = (3..228).map(Cell::Field).collect(rt.alloc())?;
    table(rt, "a table of 15 by 15 field cells", 15, cells.as_slice())
}

fn frame(rt: &HostRuntime) -> io::Result<()> {
    let parts: Vec<Part> = (0..64)
        .map(|f| Part { field: f, load: f })
        .collect(rt.alloc())?;
    let frames = [Frame {
        first: 0,
        count: 64,
        limit: 60000,
    }];
    let book = Frames {
        frames: &frames,
        parts: parts.as_slice(),
    };
    let walk = walks(rt, parts.as_slice(), |part| part.load)?;
    both_kinds(rt, "a frame of 64 parts", &book, walk)
}

fn main(rt: HostRuntime) -> io::Result<()> {
    constants(&rt)?;
    mixed_cells(&rt)?;
    field_cells(&rt)?;
    frame(&rt)
}
