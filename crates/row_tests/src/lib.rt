// Tests of rows. Every kind is driven through the same functions, and so is a kind written outside
// the planner, which has only what a kind must have.
#![tactic(auto)]

ghost use Rattle.row_tests.specs.Reads.{switch_has};
ghost use Rattle.std.proofs.Common.{rules};

pub mod switch;
#[cfg(test)]
mod tests;

use rows::{OrderedRow, Row};
use switch::Switch;

impl Row for Switch {
    ghost SPAN = { 2 };

    ghost values = { switch_has };

    const SPAN: usize = 2;

    ghost positive = { Prim.search rules };

    ghost small = { Prim.search rules };

    ghost inside = { Prim.search rules };

    fn make(lo: u8, hi: u8) -> Switch {
        Switch {
            off: lo == 0 && hi < 2,
            on: lo < 2 && hi == 1,
        }
    }

    fn has(self, v: u8) -> bool {
        match v {
            0 => self.off,
            1 => self.on,
            _ => false,
        }
    }

    fn without(self, v: u8) -> Switch {
        Switch {
            off: self.off && v != 0,
            on: self.on && v != 1,
        }
    }

    fn common(self, other: Switch) -> Switch {
        Switch {
            off: self.off && other.off,
            on: self.on && other.on,
        }
    }

    fn meets(self, other: Switch) -> bool {
        (self.off & other.off) | (self.on & other.on)
    }

    fn size(self) -> usize {
        usize::from(self.off) + usize::from(self.on)
    }
}

impl OrderedRow for Switch {
    fn least(self) -> Option<u8> {
        (0..2u8).find(|v| self.has(*v))
    }

    fn greatest(self) -> Option<u8> {
        (0..2u8).rev().find(|v| self.has(*v))
    }
}
