// Tests on fields and pairs that come one after another, and writing what they make.
ghost use Rattle.std.specs.Iterator.{AlwaysYields, IsFinite, size};
ghost use Rattle.std.specs.Prelude.{◌≡◌, ℕ, ◌+◌, ◌≤◌, List, length};
ghost use Rattle.draft.specs.Lists.{pairs, bad_mark, all_below, distinct};
ghost use Rattle.draft.specs.Memory.{overlay};

use crate::pairs::Pairs;
use rules::marks::Seen;

// Whether every field is below n.
pub(crate) fn all_known<I: Iterator<Item = u8> + Drop>(mut fields: I, n: usize) -> bool
    requires can { I.can_next fields }
    requires ends { IsFinite (I.remaining fields) }
    ensures { (fs : List ℕ) → AlwaysYields I.next_gives (λ f. f) fields fs → result ≡ all_below n fs }
{
    fields.all(|field| (field as usize) < n)
}

// Whether no field comes twice.
pub(crate) fn all_apart<I: Iterator<Item = u8> + Drop>(fields: I) -> bool
    requires can { I.can_next fields }
    requires ends { IsFinite (I.remaining fields) }
    ensures { (fs : List ℕ) → AlwaysYields I.next_gives (λ f. f) fields fs → result ≡ distinct fs }
{
    let mut seen = Seen::none();
    seen.note_all(fields, 256)
}

// Whether some pair has a mark above 1.
pub(crate) fn any_bad_mark(list: &[u8]) -> bool
    ensures { result ≡ bad_mark (pairs list.now) }
{
    Pairs(list).any(|(mark, _)| mark > 1)
}

// Writes items one behind another, from a place on.
pub(crate) fn write_from<T: Copy, I: Iterator<Item = T> + Drop>(
    places: &mut [T],
    at: usize,
    items: I,
)
    requires can { I.can_next items }
    requires ends { IsFinite (I.remaining items) }
    requires fits { at + size (I.remaining items) ≤ length places.old }
    ensures { (ts : List T) → AlwaysYields I.next_gives (λ t. t) items ts → places.new ≡ overlay places.old at ts }
{
    for (i, item) in items.enumerate() {
        places[at + i] = item;
    }
}
