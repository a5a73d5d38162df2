// The settle itself.
ghost use Rattle.std.specs.Prelude.{◌≤◌, length};
ghost use Rattle.settle.specs.Answers.{Settled, Settles};

use crate::lawful_book::LawfulBook;
use crate::outcome::{Grade, Outcome};
use crate::rounds::{any_empty, empty_all};
use rows::Row;
use rules::Book;
use rules::fault::NarrowFault;

impl<'a, R: Row, B: Book<R>> LawfulBook<'a, R, B> {
    // Settles the rows of the fields, and tells the grade and the rounds made.
    fn settle(&self, rows: &mut [R]) -> Outcome
        requires { self.now.n ≤ length rows.old }
        ensures { Settled R.Row.values R.Row.SPAN (B.Book.rules self.now.book.now) self.now.n rows.old rows.new result }
    {
        let rounds = self.make_rounds(rows);
        let grade = if any_empty(rows, self.n) {
            empty_all(rows, self.n);
            Grade::Nothing
        } else if self.has_ring() {
            Grade::Local
        } else {
            Grade::Exact
        };
        Outcome { grade, rounds }
    }
}

// Settles the rows of n fields by the rules of a book, and tells the grade and the rounds made.
pub fn settle<R: Row, B: Book<R>>(
    book: &B,
    n: usize,
    rows: &mut [R],
) -> Result<Outcome, NarrowFault>
    ensures { Settles R.Row.values R.Row.SPAN (B.Book.rules book.now) n rows.old rows.new result }
{
    if n > rows.len() {
        return Err(NarrowFault::Unfit);
    }
    Ok(LawfulBook::of(book, n)?.settle(rows))
}
