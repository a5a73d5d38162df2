// Tables as a book of rules.
ghost use Rattle.rules.specs.Books.{Narrows, rule_at, sets};
ghost use Rattle.tables.specs.Closure.{Closes};
ghost use Rattle.tables.specs.Reads.{table_rules};

use crate::record::Tables;
use rows::Row;
use rules::Book;
use rules::fault::NarrowFault;

impl<'a, R: Row> Book<R> for Tables<'a> {
    ghost rules = { table_rules };

    fn rule_count(&self) -> usize {
        self.heads.len().min(1025)
    }

    fn scope_size(&self, k: usize) -> u8 {
        if k > 1023 || k >= self.heads.len() {
            return 255;
        }
        match self.table(k) {
            Some(table) => table.field_total().min(255) as u8,
            None => 0,
        }
    }

    fn scope_field(&self, k: usize, place: usize) -> u8 {
        if k > 1023 {
            return 255;
        }
        match self.table(k) {
            Some(table) => table.field(place).unwrap_or(255),
            None => 255,
        }
    }

    // Besides what every book promises: where an allowed line exists, the rows that are left are
    // closed under the three rules for array constraints.
    fn narrow(&self, k: usize, n: usize, rows: &mut [R]) -> Result<bool, NarrowFault>
        ensures narrows { Narrows R.Row.values (rule_at (table_rules self.now) k) k n rows.old rows.new result }
        ensures closed { Closes (rule_at (table_rules self.now) k) (sets R.Row.values rows.old) (sets R.Row.values rows.new) result }
    {
        let table = self.table(k).ok_or(NarrowFault::Unfit)?;
        if k > 1023 || n > rows.len() || !table.is_lawful(n) {
            return Err(NarrowFault::Unfit);
        }
        Ok(table.narrow(rows))
    }
}
