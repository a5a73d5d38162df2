// A book that is known to be lawful.
ghost use Rattle.std.specs.Prelude.{◌≡◌, ◌≤◌, MatchResult};
ghost use Rattle.rules.specs.Rules.{Lawful};
ghost use Rattle.settle.specs.LawfulRules.{lawful_prop};

use rows::Row;
use rules::Book;
use rules::fault::NarrowFault;
use rules::lawful::is_lawful;
use std::marker::PhantomData;

// A book that is lawful for n fields.
#[derive(Drop)]
pub(crate) struct LawfulBook<'a, R: Row, B: Book<R>> {
    pub book: &'a B,
    pub n: usize,
    // The kind of row that it narrows.
    pub kind: PhantomData<R>,
    pub ghost known: { n ≤ 254 },
    pub ghost lawful: { Lawful n (B.Book.rules book.now) } by { lawful_prop n (B.Book.rules book.now) },
}

impl<'a, R: Row, B: Book<R>> LawfulBook<'a, R, B> {
    // The book, if it is lawful for n fields. Of more than 254 fields no book is known to be lawful.
    pub(crate) fn of(book: &'a B, n: usize) -> Result<LawfulBook<'a, R, B>, NarrowFault>
        ensures { MatchResult result (λ fit. (fit.book.now ≡ book.now) × (fit.n ≡ n)) (λ _. (n ≤ 254) × Lawful n (B.Book.rules book.now) → ⊥) }
    {
        if !is_lawful(book, n) {
            return Err(NarrowFault::Unfit);
        }
        Ok(LawfulBook {
            book,
            n,
            kind: PhantomData,
        })
    }
}
