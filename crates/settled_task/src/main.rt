// One commissioning task, entered as a sheet and settled, once in each kind of row: what is left of the
// logging times, of the filter orders that they are looked up from, and of the blade loop? And a sheet
// of parities, which no setting meets though each of its rules alone allows every value.
#![tactic(auto)]

use bits::record::Bits;
use draft::fault::{DraftFault, Refused};
use draft::memory::{Memory, Range};
use draft::state::Draft;
use frames::record::{Frame, Frames, Part};
use rows::listing::Listed;
use rows::{OrderedRow, Row};
use rules::Book;
use rules::pair::Joined;
use runs::record::Runs;
use settle::settling::settle;
use std::io;
use tables::record::{Axis, Cell, Head, Tables};

// Settles the rows of a sheet, and tells the grade, the rounds and what is left of each field.
fn settled<R: OrderedRow, B: Book<R>>(
    rt: &HostRuntime,
    book: &B,
    rows: &mut [R],
) -> io::Result<()> {
    match settle(book, rows.len(), rows) {
        Ok(outcome) => {
            let grade = outcome.grade;
            let rounds = outcome.rounds;
            println!(rt; "settled, the grade is {grade}, rounds made: {rounds}")?;
        }
        Err(_) => println!(rt; "the rules do not fit the sheet")?,
    }
    for row in rows {
        let values = Listed(*row);
        let count = row.size();
        println!(rt; "what is left: {values} ({count} in all)")?;
    }
    Ok(())
}

// The head of a table over one axis.
fn lookup(x: u8, axis: Axis, first: usize) -> Head {
    Head {
        x,
        axes: [axis; 4],
        axis_count: 1,
        first,
    }
}

// Enters the task as a sheet: field 0 is the time of the logging task, field 1 the filter order that
// it is looked up from, field 2 the time of the blade loop.
fn enter_tasks<R: OrderedRow>(rows: &mut [R], memory: &mut Memory) -> Result<Draft, Refused> {
    let draft = Draft::new().enter_field(rows, memory, 3, 12)?;
    let draft = draft.enter_field(rows, memory, 0, 9)?;
    let draft = draft.enter_field(rows, memory, 25, 45)?;
    let draft = draft.enter_table(rows, memory, 0, &[1, 4])?;
    let draft = draft.enter_cells(rows, memory, &[0, 4, 0, 8])?;
    let draft = draft.enter_cells(rows, memory, &[0, 10, 0, 40])?;
    draft.enter_frame(rows, memory, 40, &[2, 5, 0, 2])
}

// Enters the task, and settles it by its own book.
fn work_tasks<R: OrderedRow>(
    rt: &HostRuntime,
    rows: &mut [R],
    memory: &mut Memory,
) -> io::Result<()> {
    let draft = match enter_tasks(rows, memory) {
        Ok(draft) => draft,
        Err(entry) => return refused(rt, entry.fault),
    };
    println!(rt; "entered as a sheet: log rate, filter order, blade loop")?;
    match draft.own_book(memory) {
        Ok(book) => settled(rt, &book, rows),
        Err(fault) => refused(rt, fault),
    }
}

// The same task as a sheet, in memory that this function lends.
fn settle_tasks<R: OrderedRow>(rt: &HostRuntime) -> io::Result<()> {
    let heap = rt.alloc();
    let nothing = Axis {
        field: 0,
        extent: 0,
    };
    let mut ranges = vec![in heap; Range { lo: 0, hi: 0 }; 3]?;
    let mut heads = vec![in heap; lookup(0, nothing, 0); 1]?;
    let mut cells = vec![in heap; Cell::Constant(0); 4]?;
    let mut frames = vec![in heap; Frame {
        first: 0,
        count: 0,
        limit: 0
    }; 1]?;
    let mut parts = vec![in heap; Part { field: 0, load: 0 }; 2]?;
    let mut rows = vec![in heap; R::make(1, 0); 3]?;
    let mut memory = Memory {
        ranges: ranges.as_mut_slice(),
        heads: heads.as_mut_slice(),
        cells: cells.as_mut_slice(),
        frames: frames.as_mut_slice(),
        parts: parts.as_mut_slice(),
    };
    work_tasks(rt, rows.as_mut_slice(), &mut memory)
}

// One line: by which number the sheet is refused.
fn refused(rt: &HostRuntime, fault: DraftFault) -> io::Result<()> {
    let number = u8::from(fault);
    println!(rt; "the sheet is refused with {number}")
}

// Two fields are looked up from a third and are equal to it, and a last one, which is 1, is their
// parity. The three rules are joined in a ring.
fn settle_parities<R: OrderedRow>(rt: &HostRuntime) -> io::Result<()> {
    let axis = |field| Axis { field, extent: 2 };
    let heads = [
        lookup(1, axis(0), 0),
        lookup(2, axis(0), 0),
        Head {
            x: 3,
            axes: [axis(1), axis(2), axis(2), axis(2)],
            axis_count: 2,
            first: 2,
        },
    ];
    let cells = [
        Cell::Constant(0),
        Cell::Constant(1),
        Cell::Constant(0),
        Cell::Constant(1),
        Cell::Constant(1),
        Cell::Constant(0),
    ];
    let book = Tables {
        heads: &heads,
        cells: &cells,
    };
    println!(rt; "a sheet of parities that no setting meets: o, p, q, x")?;
    let mut rows = vec![in rt.alloc(); R::make(0, 1); 3]?;
    rows.push(R::make(1, 1))?;
    settled(rt, &book, rows.as_mut_slice())
}

// The whole task, in one kind of row.
fn commission<R: OrderedRow>(rt: &HostRuntime) -> io::Result<()> {
    settle_tasks::<R>(rt)?;
    settle_parities::<R>(rt)
}

fn main(rt: HostRuntime) -> io::Result<()> {
    println!(rt; "Settling a commissioning task, its rows kept as bits")?;
    commission::<Bits>(&rt)?;
    println!(rt; "The same task, its rows kept as runs")?;
    commission::<Runs>(&rt)
}
