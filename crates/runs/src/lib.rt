// Rows of up to 128 values as lists of runs.
//
// A list may name its values in any order, and a value more than once. So each call reads the list
// into a bit set, works there, and writes what is left as runs in order.
#![tactic(auto)]

ghost use Rattle.rows.specs.Values.{Same, up_to};
ghost use Rattle.bits.specs.Reads.{bits_have};
ghost use Rattle.runs.specs.Reads.{runs_have};
ghost use Rattle.std.proofs.Common.{rules};

pub mod record;

use bits::record::Bits;
use record::Runs;
use rows::listing::runs_of;
use rows::run::Run;
use rows::{OrderedRow, Row};

// A list of runs as a bit set.
impl From<Runs> for Bits {
    ghost from_gives = { λ runs bits. Same (bits_have bits) (runs_have runs) };

    fn from(runs: Runs) -> Bits {
        let count = (runs.count as usize).min(64);
        let mut bits = Bits::make(1, 0);
        for run in &runs.pairs[..count] {
            bits = bits.joined(Bits::make(run.low, run.high.min(127)));
        }
        bits
    }
}

impl Runs {
    // The values below 128 of a bit set, as its longest runs, lowest first. There are at most 64,
    // since the number after a run is in none.
    fn from_bits(bits: Bits) -> Runs
        ensures { Same (runs_have result) (up_to (bits_have bits) 127) }
    {
        let mut pairs = [Run { low: 0, high: 0 }; 64];
        let mut count = 0;
        for (i, run) in runs_of(bits.at_most(127)).enumerate() {
            pairs[i] = run;
            count = i + 1;
        }
        Runs {
            pairs,
            count: count as u8,
        }
    }
}

impl Row for Runs {
    ghost SPAN = { 128 };

    ghost values = { runs_have };

    const SPAN: usize = 128;

    ghost positive = { Prim.search rules };

    ghost small = { Prim.search rules };

    ghost inside = { Prim.search rules };

    fn make(lo: u8, hi: u8) -> Runs {
        // A run that ends before it begins has no value.
        let count = if (hi as usize) < Self::SPAN { 1 } else { 0 };
        Runs {
            pairs: [Run { low: lo, high: hi }; 64],
            count,
        }
    }

    fn has(self, v: u8) -> bool {
        Bits::from(self).has(v)
    }

    fn without(self, v: u8) -> Runs {
        Runs::from_bits(Bits::from(self).without(v))
    }

    fn common(self, other: Runs) -> Runs {
        Runs::from_bits(Bits::from(self).common(Bits::from(other)))
    }

    fn meets(self, other: Runs) -> bool {
        Bits::from(self).meets(Bits::from(other))
    }

    fn size(self) -> usize {
        Bits::from(self).size()
    }

    fn minus(self, other: Runs) -> Runs {
        Runs::from_bits(Bits::from(self).minus(Bits::from(other)))
    }
}

impl OrderedRow for Runs {
    fn least(self) -> Option<u8> {
        Bits::from(self).least()
    }

    fn greatest(self) -> Option<u8> {
        Bits::from(self).greatest()
    }
}
