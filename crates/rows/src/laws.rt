// The laws that proofs over any kind of row lean on.
ghost use Rattle.rows.specs.Laws.{Laws};

use crate::Row;

// Every kind keeps the laws. There is nothing to compute: the contract is the theorem.
pub fn laws_hold<R: Row>()
    ensures { Laws R R.Row.SPAN R.Row.values }
{}
