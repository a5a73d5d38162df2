// Rows of up to 256 values as bit sets. Every call works on whole words.
#![tactic(auto)]

ghost use Rattle.std.specs.Prelude.{ℕ, ◌<◌, ◌&&◌, nat_lt, slice_index};
ghost use Rattle.rows.specs.Values.{Same, either, Least};
ghost use Rattle.bits.specs.Reads.{bits_have};
ghost use Rattle.std.proofs.Common.{rules};

pub mod record;
mod words;

use record::Bits;
use rows::{OrderedRow, Row};
use std::array;

// All values below n.
fn first_values(n: usize) -> Bits
    ensures { Same (bits_have result) (λ v. nat_lt v 256 && nat_lt v n) }
{
    Bits {
        words: array::from_fn(|i| words::first(n.saturating_sub(64 * i))),
    }
}

// The least value, in the first word that is not 0.
fn lowest(row: Bits) -> Option<u8>
    ensures { Least (bits_have row) result }
{
    (0..4u8).find_map(|i| words::least(row.words[i as usize]).map(|k| 64 * i + k))
}

impl Bits {
    // The words that `op` makes of each word of the row and the word of the other at the same place.
    fn by_words<F: Fn(u64, u64) -> u64>(self, other: Bits, op: F) -> Bits
        requires { F.IsAlwaysCallable op }
        ensures { (i : ℕ) → i < 4 → F.post op (slice_index self.words i) (slice_index other.words i) (slice_index result.words i) }
    {
        Bits {
            words: array::from_fn(|i| op(self.words[i], other.words[i])),
        }
    }

    // The values that either row has.
    pub fn joined(self, other: Bits) -> Bits
        ensures { Same (bits_have result) (either (bits_have self) (bits_have other)) }
    {
        self.by_words(other, words::joined)
    }
}

impl Row for Bits {
    ghost SPAN = { 256 };

    ghost values = { bits_have };

    const SPAN: usize = 256;

    ghost positive = { Prim.search rules };

    ghost small = { Prim.search rules };

    ghost inside = { Prim.search rules };

    fn make(lo: u8, hi: u8) -> Bits {
        first_values(hi as usize + 1).minus(first_values(lo as usize))
    }

    fn has(self, v: u8) -> bool {
        words::has(self.words[v as usize / 64], v)
    }

    fn without(self, v: u8) -> Bits {
        let mut words = self.words;
        let i = v as usize / 64;
        words[i] = words::without(words[i], v);
        Bits { words }
    }

    fn common(self, other: Bits) -> Bits {
        self.by_words(other, words::common)
    }

    fn meets(self, other: Bits) -> bool {
        lowest(self.common(other)).is_some()
    }

    fn size(self) -> usize {
        self.words.iter().map(|word| words::size(*word)).sum()
    }

    fn minus(self, other: Bits) -> Bits {
        self.by_words(other, words::minus)
    }

    fn at_most(self, v: u8) -> Bits {
        self.common(first_values(v as usize + 1))
    }

    fn is_empty(self) -> bool {
        lowest(self).is_none()
    }
}

impl OrderedRow for Bits {
    fn least(self) -> Option<u8> {
        lowest(self)
    }

    fn greatest(self) -> Option<u8> {
        (0..4u8).rev().find_map(|i| words::greatest(self.words[i as usize]).map(|k| 64 * i + k))
    }
}
