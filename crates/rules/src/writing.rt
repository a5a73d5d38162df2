// Writing a narrowed row back.
ghost use Rattle.std.specs.Prelude.{◌≡◌, ℕ, List, Decides, length, slice_set};
ghost use Rattle.std.specs.Iterator.{AlwaysYields, IsFinite};
ghost use Rattle.rules.specs.Books.{Loses};
ghost use Rattle.rules.specs.Writes.{Written, none_left};

use rows::Row;

// Puts a row in the place of a field's row, and says whether the field loses a value by that. A
// field without a row stays without one.
pub fn replace<R: Row>(rows: &mut [R], field: usize, row: R) -> bool
    ensures after { rows.new ≡ slice_set rows.old field row }
    ensures lost { Decides result (Loses R.Row.values rows.old field (R.Row.values row)) }
{
    if field >= rows.len() {
        return false;
    }
    let lost = rows[field].minus(row);
    rows[field] = row;
    !lost.is_empty()
}

// Empties the row of each of the fields, and says whether one had a value.
pub fn clear<R: Row, I: Iterator<Item = u8> + Drop>(rows: &mut [R], fields: I) -> bool
    requires can { I.can_next fields }
    requires ends { IsFinite (I.remaining fields) }
    ensures { (fs : List ℕ) → AlwaysYields I.next_gives (λ f. f) fields fs → Written R.Row.values none_left fs (length fs) rows.old rows.new result }
{
    let mut changed = false;
    for field in fields {
        changed |= replace(rows, field as usize, R::make(1, 0));
    }
    changed
}
