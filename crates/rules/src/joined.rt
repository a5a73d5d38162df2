// Two books as one: the rules of the first, then those of the second.
ghost use Rattle.std.specs.Prelude.{◌++◌};
ghost use Rattle.rules.specs.Joining.{Placed};

use crate::Book;
use crate::fault::NarrowFault;
use crate::pair::{Joined, Place};
use rows::Row;

impl<A, B> Joined<A, B> {
    // Where rule k stands; none above 1,023.
    fn place<R: Row>(&self, k: usize) -> Option<Place>
    where
        A: Book<R>,
        B: Book<R>,
        ensures { Placed (A.Book.rules self.now.first) (B.Book.rules self.now.second) k result }
    {
        if k > 1023 {
            return None;
        }
        let count = self.first.rule_count();
        Some(if k < count {
            Place::First(k)
        } else {
            Place::Second(k - count)
        })
    }
}

impl<R: Row, A: Book<R>, B: Book<R>> Book<R> for Joined<A, B> {
    ghost rules = { λ book. A.Book.rules book.first ++ B.Book.rules book.second };

    fn rule_count(&self) -> usize {
        (self.first.rule_count() + self.second.rule_count()).min(1025)
    }

    fn scope_size(&self, k: usize) -> u8 {
        match self.place::<R>(k) {
            Some(Place::First(j)) => self.first.scope_size(j),
            Some(Place::Second(j)) => self.second.scope_size(j),
            None => 255,
        }
    }

    fn scope_field(&self, k: usize, place: usize) -> u8 {
        match self.place::<R>(k) {
            Some(Place::First(j)) => self.first.scope_field(j, place),
            Some(Place::Second(j)) => self.second.scope_field(j, place),
            None => 255,
        }
    }

    fn narrow(&self, k: usize, n: usize, rows: &mut [R]) -> Result<bool, NarrowFault> {
        match self.place::<R>(k) {
            Some(Place::First(j)) => self.first.narrow(j, n, rows),
            Some(Place::Second(j)) => self.second.narrow(j, n, rows),
            None => Err(NarrowFault::Unfit),
        }
    }
}
