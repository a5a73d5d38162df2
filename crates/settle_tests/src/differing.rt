// Fields that differ, pair by pair, as a book of rules.
ghost use Rattle.std.specs.Prelude.{◌≡◌, ◌<◌, length, ◌≢◌};
ghost use Rattle.rules.specs.Books.{Narrowing};
ghost use Rattle.settle_tests.specs.Differ.{differ_rule, differ_rules, PairAt, Beside};

use crate::record::{Differing, Pair};
use rows::Row;
use rules::Book;
use rules::fault::NarrowFault;
use rules::writing::replace;

impl<'a> Differing<'a> {
    // The pair of rule k; none past the end, or above 1,023.
    fn pair(&self, k: usize) -> Option<Pair>
        ensures { PairAt self.now k result }
    {
        if k > 1023 || k >= self.pairs.len() {
            return None;
        }
        Some(self.pairs[k])
    }
}

// The values of a row beside which the other row has another value. With two values or more it has
// one beside each.
fn beside<R: Row>(row: R, other: R) -> R
    ensures { Beside (R.Row.values row) (R.Row.values other) (R.Row.values result) }
{
    match other.size() {
        0 => R::make(1, 0),
        1 => row.minus(other),
        _ => row,
    }
}

// Narrows the rows of two fields that differ, and says whether one lost a value.
fn narrow_pair<R: Row>(one: usize, other: usize, rows: &mut [R]) -> bool
    requires one { one < length rows.old }
    requires other { other < length rows.old }
    requires apart { one ≢ other }
    ensures { Narrowing R.Row.values (differ_rule one other) rows.old rows.new result }
{
    let first = rows[one];
    let second = rows[other];
    replace(rows, one, beside(first, second)) | replace(rows, other, beside(second, first))
}

impl<'a, R: Row> Book<R> for Differing<'a> {
    ghost rules = { differ_rules };

    fn rule_count(&self) -> usize {
        self.pairs.len().min(1025)
    }

    fn scope_size(&self, k: usize) -> u8 {
        match self.pair(k) {
            Some(_) => 2,
            None => 255,
        }
    }

    fn scope_field(&self, k: usize, place: usize) -> u8 {
        let Some(pair) = self.pair(k) else {
            return 255;
        };
        match place {
            0 => pair.one,
            1 => pair.other,
            _ => 255,
        }
    }

    fn narrow(&self, k: usize, n: usize, rows: &mut [R]) -> Result<bool, NarrowFault> {
        let Some(pair) = self.pair(k) else {
            return Err(NarrowFault::Unfit);
        };
        let one = pair.one as usize;
        let other = pair.other as usize;
        if n > rows.len() || one >= n || other >= n || one == other {
            return Err(NarrowFault::Unfit);
        }
        Ok(narrow_pair(one, other, rows))
    }
}
