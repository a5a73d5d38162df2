// What follows from the meaning of settling. There is nothing to compute: the contract is the
// theorem.
ghost use Rattle.settle.specs.Theorems.{OneSettling};

// Two settlings of the same sets agree in grade, rounds and the sets left.
pub fn settling_has_one_answer()
    ensures { OneSettling }
{}
