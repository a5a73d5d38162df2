// Whether the rules of a book are joined in a ring.
//
// Going from the last rule to the first, each rule brings its fields under one label. The rules
// have a ring exactly when some rule finds two of its fields under one label already.
ghost use Rattle.std.specs.Prelude.{◌≡◌, ◌<◌, length, Decides};
ghost use Rattle.rules.specs.Books.{rule_at, told_field};
ghost use Rattle.rules.specs.Rings.{Ring};
ghost use Rattle.settle.specs.Answers.{TellsRing};
ghost use Rattle.settle.specs.Labels.{label_of, MeetsLabels, Joins};

use crate::labels::Labels;
use crate::lawful_book::LawfulBook;
use rows::Row;
use rules::Book;
use rules::fault::NarrowFault;
use rules::marks::Seen;

impl<'a, R: Row, B: Book<R>> LawfulBook<'a, R, B> {
    // The labels of the fields of rule k; none, if two of the fields are under one.
    fn labels_met(&self, k: usize, labels: &Labels) -> Option<Seen>
        requires { k < length (B.Book.rules self.now.book.now) }
        ensures { MeetsLabels (label_of labels.now) (rule_at (B.Book.rules self.now.book.now) k).scope result }
    {
        let size = self.book.scope_size(k) as usize;
        let label = |place: usize| -> u8
            ensures { result ≡ label_of labels.entry.now (told_field (B.Book.rules self.entry.now.book.now) k place) }
        { labels.of[self.book.scope_field(k, place) as usize] };
        let mut met = Seen::none();
        met.note_all((0..size).map(label), 256).then_some(met)
    }

    // Brings the fields of rule k under one label; answers no, and leaves the labels, if two of
    // them are under one already.
    fn join(&self, k: usize, labels: &mut Labels) -> bool
        requires { k < length (B.Book.rules self.now.book.now) }
        ensures { Joins (label_of labels.old) (rule_at (B.Book.rules self.now.book.now) k).scope labels.new result }
    {
        let Some(met) = self.labels_met(k, labels) else {
            return false;
        };
        // A rule of one field joins nothing.
        if self.book.scope_size(k) > 1 {
            let first = self.book.scope_field(k, 0);
            let one = labels.of[first as usize];
            labels.replace(&met, one);
        }
        true
    }

    // Whether the rules have a ring.
    pub(crate) fn has_ring(&self) -> bool
        ensures { Decides result (Ring (B.Book.rules self.now.book.now)) }
    {
        let mut labels = Labels::apart();
        for k in (0..self.book.rule_count()).rev() {
            if !self.join(k, &mut labels) {
                return true;
            }
        }
        false
    }
}

// Whether the rules of a book have a ring. Of more than 254 fields no book is known to be lawful,
// so a book that is not lawful for 254 is refused.
pub fn has_ring<R: Row, B: Book<R>>(book: &B) -> Result<bool, NarrowFault>
    ensures { TellsRing (B.Book.rules book.now) result }
{
    let lawful = LawfulBook::<R, B>::of(book, 254)?;
    Ok(lawful.has_ring())
}
