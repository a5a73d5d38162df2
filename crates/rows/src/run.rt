ghost use Rattle.std.specs.Prelude.{Some};
ghost use Rattle.rows.specs.Runs.{run_text};

use std::fmt;

// Neighbouring values, from low to high, both ends included.
#[derive(Clone, Copy, PartialEq, Eq, Debug)]
pub struct Run {
    pub low: u8,
    pub high: u8,
}

// A run of one value is written as the value, any other as its ends with a hyphen between.
impl fmt::Display for Run {
    ghost output = { λ run. Some (run_text run) };

    fn fmt<W: fmt::Write>(&self, f: &mut fmt::Formatter<W>) -> fmt::Result {
        let low = self.low;
        let high = self.high;
        if low == high {
            write!(f, "{low}")
        } else {
            write!(f, "{low}-{high}")
        }
    }
}
