// What follows from the meanings of rules, for every list of rules. There is nothing to compute:
// each contract is a theorem.
ghost use Rattle.rules.specs.Theorems.{NarrowingKeeps, RinglessExtends, RingsDecided};

// Narrowing by a rule never takes a value from sets that stand by it.
pub fn narrowing_keeps()
    ensures { NarrowingKeeps }
{}

// Without a ring, every value of a standing choice stands in a full setting.
pub fn ringless_extends()
    ensures { RinglessExtends }
{}

// Lawful rules have a ring exactly when some rule joins two fields that the rules behind it join.
pub fn rings_are_decided()
    ensures { RingsDecided }
{}
