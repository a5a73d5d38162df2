// One commissioning task, told step by step, once in each kind of row: which log rates can a pitch
// controller still run with, which filter orders give one of them, and do the tasks fit into their
// frame?
#![tactic(auto)]

use bits::record::Bits;
use frames::record::{Frame, Frames, Part};
use rows::listing::Listed;
use rows::{OrderedRow, Row};
use rules::Book;
use runs::record::Runs;
use std::io;
use tables::record::{Axis, Cell, Head, Tables};

// One line: what the step was, and the values that it leaves open.
fn told<R: OrderedRow>(rt: &HostRuntime, step: &str, row: R) -> io::Result<()> {
    let values = Listed(row);
    let count = row.size();
    println!(rt; "{step}: {values} ({count} in all)")
}

// The log rates: those that the controller type offers, that the storage allows, and that the site
// has not struck.
fn log_rates<R: OrderedRow>(rt: &HostRuntime) -> io::Result<R> {
    let offered = R::make(3, 60);
    told(rt, "rates that the controller type offers", offered)?;
    let allowed = R::make(0, 12);
    told(rt, "rates that the storage at the site allows", allowed)?;
    let open = offered.common(allowed);
    told(rt, "rates that both leave open", open)?;
    let struck = open.without(8).without(11);
    told(rt, "after the site has struck 8 and 11", struck)?;
    if let (Some(least), Some(greatest)) = (struck.least(), struck.greatest()) {
        println!(rt; "slowest {least}, fastest {greatest}")?;
    }
    Ok(struck)
}

// Narrows two rows by the first rule of a book, and tells what came of it: the kind of rule, how
// large it is, and what it takes away.
fn narrow<R: Row, B: Book<R>>(
    rt: &HostRuntime,
    book: &B,
    rows: &mut [R],
    kind: &str,
    size: &str,
    values: &str,
) -> io::Result<()> {
    match book.narrow(0, 2, rows) {
        Ok(true) => println!(rt; "the {kind}{size} takes {values} away"),
        Ok(false) => println!(rt; "the {kind}{size} takes nothing away"),
        Err(_) => println!(rt; "the {kind} does not fit the sheet"),
    }
}

// The table: the time of the logging task is looked up from the filter order.
fn time_of_logging<R: OrderedRow>(rt: &HostRuntime, rates: R) -> io::Result<R> {
    let order = Axis {
        field: 1,
        extent: 4,
    };
    let heads = [Head {
        x: 0,
        axes: [order, order, order, order],
        axis_count: 1,
        first: 0,
    }];
    let cells = [
        Cell::Constant(4),
        Cell::Constant(8),
        Cell::Constant(10),
        Cell::Constant(40),
    ];
    let book = Tables {
        heads: &heads,
        cells: &cells,
    };
    let orders = R::make(0, 9);
    told(
        rt,
        "filter orders, of which a table gives four their logging rate",
        orders,
    )?;
    let mut rows = Vec::new(rt.alloc());
    rows.push(rates)?;
    rows.push(orders)?;
    narrow(rt, &book, rows.as_mut_slice(), "table", "", "values")?;
    let mut left = rates;
    for row in rows.as_slice().iter().rev() {
        told(rt, "what the table leaves", *row)?;
        left = *row;
    }
    Ok(left)
}

// The frame: a blade loop and the logging task, each with its loading, in a frame of 40.
fn frame_of_tasks<R: OrderedRow>(rt: &HostRuntime, logging: R) -> io::Result<()> {
    let frames = [Frame {
        first: 0,
        count: 2,
        limit: 40,
    }];
    let parts = [Part { field: 0, load: 5 }, Part { field: 1, load: 2 }];
    let book = Frames {
        frames: &frames,
        parts: &parts,
    };
    let blade = R::make(25, 45);
    told(rt, "times that the blade loop may take", blade)?;
    let mut rows = Vec::new(rt.alloc());
    rows.push(blade)?;
    rows.push(logging)?;
    narrow(rt, &book, rows.as_mut_slice(), "frame", " of 40", "times")?;
    for row in rows.as_slice() {
        told(rt, "a task that still fits", *row)?;
    }
    Ok(())
}

// The whole task, in one kind of row.
fn commission<R: OrderedRow>(rt: &HostRuntime) -> io::Result<()> {
    let rates = log_rates::<R>(rt)?;
    let logging = time_of_logging(rt, rates)?;
    frame_of_tasks(rt, logging)
}

fn main(rt: HostRuntime) -> io::Result<()> {
    println!(rt; "Commissioning a pitch controller, its rows kept as bits")?;
    commission::<Bits>(&rt)?;
    println!(rt; "The same task, its rows kept as runs")?;
    commission::<Runs>(&rt)
}
