// Each call against what it should answer for every value, at the edges of words and of spans.
use crate::switch::Switch;
use bits::record::Bits;
use rows::listing::{Listed, next_run, runs_of};
use rows::run::Run;
use rows::{OrderedRow, Row};
use runs::record::Runs;
use std::alloc::AllocError;
use std::process::Abort;

const EDGES: [u8; 9] = [0, 1, 62, 63, 64, 127, 128, 254, 255];

// Whether the row made from lo to hi should have v.
fn wanted<R: Row>(lo: u8, hi: u8, v: u8) -> bool {
    (hi as usize) < R::SPAN && lo <= v && v <= hi
}

// The row has the values from lo to hi and no others, and says so in every way.
fn holds_range<R: OrderedRow>(rt: &impl Abort, row: R, lo: u8, hi: u8) {
    for v in 0..=u8::MAX {
        assert_eq!(rt; row.has(v), wanted::<R>(lo, hi, v));
    }
    let count = (0..=u8::MAX).filter(|v| wanted::<R>(lo, hi, *v)).count();
    assert_eq!(rt; row.size(), count);
    assert_eq!(rt; row.is_empty(), count == 0);
    assert_eq!(rt; row.meets(row), count > 0);
    assert_eq!(rt; row.least(), (count > 0).then_some(lo));
    assert_eq!(rt; row.greatest(), (count > 0).then_some(hi));
}

// Two rows taken together, value by value.
fn holds_pair<R: OrderedRow>(rt: &impl Abort, a: R, b: R) {
    let common = a.common(b);
    let minus = a.minus(b);
    for v in 0..=u8::MAX {
        assert_eq!(rt; common.has(v), a.has(v) && b.has(v));
        assert_eq!(rt; minus.has(v), a.has(v) && !b.has(v));
    }
    assert_eq!(rt; a.meets(b), !common.is_empty());
    assert!(rt; common.size().saturating_add(minus.size()) == a.size());
}

// One value taken out, and the values not above it.
fn holds_value<R: OrderedRow>(rt: &impl Abort, row: R, v: u8) {
    let without = row.without(v);
    let at_most = row.at_most(v);
    for w in 0..=u8::MAX {
        assert_eq!(rt; without.has(w), row.has(w) && w != v);
        assert_eq!(rt; at_most.has(w), row.has(w) && w <= v);
    }
}

fn ranges_hold<R: OrderedRow>(rt: &impl Abort) {
    for lo in EDGES {
        for hi in EDGES {
            holds_range(rt, R::make(lo, hi), lo, hi);
        }
    }
}

fn pairs_hold<R: OrderedRow>(rt: &impl Abort) {
    for lo in EDGES {
        for hi in EDGES {
            holds_pair(rt, R::make(0, lo), R::make(lo, hi));
            holds_pair(rt, R::make(lo, 127), R::make(1, hi));
            holds_value(rt, R::make(lo, 127), hi);
            holds_value(rt, R::make(0, 1), hi);
        }
    }
}

// One kind through all of it.
fn drives<R: OrderedRow>(rt: &impl Abort, span: usize) {
    assert_eq!(rt; R::SPAN, span);
    assert_eq!(rt; R::value_count(), span);
    ranges_hold::<R>(rt);
    pairs_hold::<R>(rt);
}

#[test]
fn every_kind_is_driven(rt: HostRuntime) {
    drives::<Bits>(&rt, 256);
    drives::<Runs>(&rt, 128);
    drives::<Switch>(&rt, 2);
}

// Every second value: as many runs as a list can hold.
fn alternating<R: OrderedRow>() -> R {
    (1..128u8)
        .step_by(2)
        .fold(R::make(0, 127), |row, v| row.without(v))
}

fn holds_alternating<R: OrderedRow>(rt: &impl Abort) {
    let row = alternating::<R>();
    assert_eq!(rt; row.size(), 64);
    assert_eq!(rt;
        next_run(row, 125),
        Some(Run {
            low: 126,
            high: 126,
        })
    );
    holds_pair(rt, row, R::make(31, 96));
    holds_pair(rt, R::make(31, 96), row);
    holds_value(rt, row, 64);
}

#[test]
fn alternating_values_fit(rt: HostRuntime) {
    holds_alternating::<Bits>(&rt);
    holds_alternating::<Runs>(&rt);
}

// Runs out of order: two that overlap, one backward, one that leaves the span, one beyond it.
fn untidy() -> Runs {
    let mut pairs = [Run { low: 1, high: 0 }; 64];
    pairs[0] = Run {
        low: 120,
        high: 200,
    };
    pairs[1] = Run { low: 15, high: 25 };
    pairs[2] = Run { low: 9, high: 3 };
    pairs[3] = Run { low: 10, high: 20 };
    pairs[4] = Run {
        low: 130,
        high: 140,
    };
    Runs { pairs, count: 5 }
}

#[test]
fn untidy_runs_are_read(rt: HostRuntime) {
    let row = untidy();
    assert_eq!(rt; row.size(), 24);
    assert_eq!(rt; row.least(), Some(10));
    assert_eq!(rt; row.greatest(), Some(127));
    assert_eq!(rt; next_run(row, 0), Some(Run { low: 10, high: 25 }));
    assert_eq!(rt;
        next_run(row, 26),
        Some(Run {
            low: 120,
            high: 127,
        })
    );
    assert_eq!(rt; next_run(row, 128), None);
    holds_pair(&rt, row, Runs::make(20, 121));
    holds_value(&rt, row, 17);
}

#[test]
fn a_count_above_64_is_read_as_64(rt: HostRuntime) {
    let mut pairs = [Run { low: 1, high: 1 }; 64];
    pairs[63] = Run { low: 5, high: 5 };
    let all = Runs { pairs, count: 200 };
    let but_one = Runs { pairs, count: 63 };
    assert_eq!(rt; all.size(), 2);
    assert_eq!(rt; all.has(5), true);
    assert_eq!(rt; but_one.size(), 1);
    assert_eq!(rt; but_one.has(5), false);
}

// The iterator gives the runs that `next_run` gives, and then none.
fn lists_its_runs<R: OrderedRow>(rt: &impl Abort, row: R) {
    let mut from = 0;
    for run in runs_of(row) {
        assert_eq!(rt; next_run(row, from), Some(run));
        from = run.high as usize + 2;
    }
    assert_eq!(rt; next_run(row, from), None);
}

#[test]
fn the_iterator_lists_the_runs(rt: HostRuntime) {
    lists_its_runs(&rt, Bits::make(0, 255).without(0).without(64).without(254));
    lists_its_runs(&rt, alternating::<Bits>());
    lists_its_runs(&rt, alternating::<Runs>());
    lists_its_runs(&rt, untidy());
    lists_its_runs(&rt, Runs::make(1, 0));
    lists_its_runs(&rt, Switch::make(0, 1));
    let mut runs = runs_of(untidy());
    assert_eq!(rt; runs.next(), Some(Run { low: 10, high: 25 }));
    assert_eq!(rt;
        runs.next(),
        Some(Run {
            low: 120,
            high: 127,
        })
    );
    assert_eq!(rt; runs.next(), None);
    assert_eq!(rt; runs.next(), None);
}

#[test]
fn rows_are_printed(rt: HostRuntime) -> Result<(), AllocError> {
    let heap = rt.alloc();
    let seven = Bits::make(3, 7).joined(Bits::make(12, 12));
    assert_eq!(rt; format!(in heap; "{}", Listed(seven))?.as_str(), "3-7 12");
    let ends = Bits::make(0, 255).without(1).without(254);
    assert_eq!(rt;
        format!(in heap; "{}", Listed(ends))?.as_str(),
        "0 2-253 255"
    );
    assert_eq!(rt;
        format!(in heap; "{}", Listed(untidy()))?.as_str(),
        "10-25 120-127"
    );
    assert_eq!(rt;
        format!(in heap; "{}", Listed(Runs::make(1, 0)))?.as_str(),
        ""
    );
    Ok(())
}
