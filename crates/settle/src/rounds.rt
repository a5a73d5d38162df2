// Rounds over a book, until one leaves some row empty or changes no set.
ghost use Rattle.std.specs.Prelude.{◌<◌, ◌≤◌, length, Decides};
ghost use Rattle.rules.specs.Books.{sets, rule_at, Narrowing};
ghost use Rattle.settle.specs.Passes.{Passed, Rounded, Emptied};
ghost use Rattle.settle.specs.Rounds.{SomeEmpty};

use crate::lawful_book::LawfulBook;
use rows::Row;
use rules::Book;

// Whether one of the first n rows has no value.
pub(crate) fn any_empty<R: Row>(rows: &[R], n: usize) -> bool
    requires { n ≤ length rows.now }
    ensures { Decides result (SomeEmpty n (sets R.Row.values rows.now)) }
{
    rows[..n].iter().any(|row| row.is_empty())
}

// Takes every value from the first n rows.
pub(crate) fn empty_all<R: Row>(rows: &mut [R], n: usize)
    requires { n ≤ length rows.old }
    ensures { Emptied R.Row.values n rows.old rows.new }
{
    rows[..n].fill_with(|| R::make(1, 0));
}

impl<'a, R: Row, B: Book<R>> LawfulBook<'a, R, B> {
    // Narrows the rows by rule k, and says whether some set changed. The book is lawful, so it
    // does not refuse.
    fn narrow(&self, k: usize, rows: &mut [R]) -> bool
        requires there { k < length (B.Book.rules self.now.book.now) }
        requires enough { self.now.n ≤ length rows.old }
        ensures { Narrowing R.Row.values (rule_at (B.Book.rules self.now.book.now) k) rows.old rows.new result }
    {
        self.book.narrow(k, self.n, rows).unwrap()
    }

    // One round: narrows every rule once, in order, and says whether some set changed.
    fn narrow_all(&self, rows: &mut [R]) -> bool
        requires { self.now.n ≤ length rows.old }
        ensures { Passed R.Row.values (B.Book.rules self.now.book.now) self.now.n rows.old rows.new result }
    {
        let count = self.book.rule_count();
        let mut changed = false;
        for k in 0..count {
            changed |= self.narrow(k, rows);
        }
        changed
    }

    // Round after round, until one leaves some row empty or changes no set, and says how many were
    // made: none, if a row is empty from the start.
    pub(crate) fn make_rounds(&self, rows: &mut [R]) -> u32
        requires { self.now.n ≤ length rows.old }
        ensures { Rounded R.Row.values (B.Book.rules self.now.book.now) self.now.n rows.old rows.new result }
    {
        if any_empty(rows, self.n) {
            return 0;
        }
        let mut rounds = 0;
        loop {
            let changed = self.narrow_all(rows);
            rounds += 1;
            if !changed || any_empty(rows, self.n) {
                return rounds;
            }
        }
    }
}
