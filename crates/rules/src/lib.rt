// Rules over fields, and books of them.
//
// A book is anything that holds a list of rules and can narrow rows by each. `Book` says what that
// means, by the list of rules that a book stands for, so that whatever is built over books is
// proved once, also for a book that is written outside the planner.
#![tactic(auto)]

ghost use Rattle.std.specs.Prelude.{◌≡◌, List};
ghost use Rattle.rules.specs.Books.{rule_at, told_count, told_size, told_field, Narrows};
ghost use Rattle.rules.specs.Rules.{Rule};

pub mod fault;
pub mod joined;
pub mod lawful;
pub mod marks;
pub mod pair;
pub mod seen;
pub mod theorems;
pub mod writing;

use fault::NarrowFault;
use rows::Row;

pub trait Book<R: Row> {
    // The rules that the book stands for, in order.
    ghost rules: { Self → List Rule };

    // How many rules there are; 1,025 if more than 1,024.
    fn rule_count(&self) -> usize
        ensures { result ≡ told_count (rules self.now) };

    // How many fields the scope of rule k has; 255 if above 254, past the end, or k above 1,023.
    fn scope_size(&self, k: usize) -> u8
        ensures { result ≡ told_size (rules self.now) k };

    // The field at a place of the scope of rule k; 255 if above 254, past an end, or k above 1,023.
    fn scope_field(&self, k: usize, place: usize) -> u8
        ensures { result ≡ told_field (rules self.now) k place };

    // Narrows the rows of n fields by rule k, and says whether some set changed.
    fn narrow(&self, k: usize, n: usize, rows: &mut [R]) -> Result<bool, NarrowFault>
        ensures { Narrows R.Row.values (rule_at (rules self.now) k) k n rows.old rows.new result };
}
