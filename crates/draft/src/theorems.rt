// What is known of a draft that is made by entries from nothing. There is nothing to compute: the
// contract is the theorem.
ghost use Rattle.draft.specs.Made.{DraftsSound};

use rows::Row;

// Its rows read as the entered ranges, and its own book is lawful for its fields.
pub fn drafts_are_sound<R: Row>()
    ensures { DraftsSound R R.Row.values R.Row.SPAN }
{}
