// Whether a book is lawful, by what books tell alone.
ghost use Rattle.std.specs.Prelude.{◌≤◌, Decides};
ghost use Rattle.rules.specs.Books.{rule_at};
ghost use Rattle.rules.specs.Rules.{Lawful, LawfulRule};

use crate::Book;
use crate::marks::Seen;
use rows::Row;

// Whether rule k is lawful for n fields.
fn rule_is_lawful<R: Row, B: Book<R>>(book: &B, k: usize, n: usize) -> bool
    requires n_bound { n ≤ 254 }
    requires k_bound { k ≤ 1023 }
    ensures { Decides result (LawfulRule n (rule_at (B.Book.rules book.now) k)) }
{
    let size = book.scope_size(k);
    if size == 0 || size == 255 {
        return false;
    }
    let mut seen = Seen::none();
    seen.note_all(
        (0..size as usize).map(|place| book.scope_field(k, place)),
        n,
    )
}

// Whether the book is lawful for n fields. A field above 254 is told as 255, so of more than 254
// fields no book is known to be lawful.
pub fn is_lawful<R: Row, B: Book<R>>(book: &B, n: usize) -> bool
    ensures { Decides result ((n ≤ 254) × Lawful n (B.Book.rules book.now)) }
{
    let count = book.rule_count();
    n <= 254 && count <= 1024 && (0..count).all(|k| rule_is_lawful(book, k, n))
}
