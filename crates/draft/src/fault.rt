// Why an entry is refused.
ghost use Rattle.std.specs.Prelude.{◌≡◌};
ghost use Rattle.draft.specs.Faults.{fault_number};

use crate::state::Draft;

// In the order in which they are looked for.
#[derive(Clone, Copy, PartialEq, Eq, PartialOrd, Ord, Debug)]
pub enum DraftFault {
    // There are fewer rows than fields, or less memory than the entries fill.
    Short,
    // Cells lack, so only cells can be entered; or there are more cells than lack.
    Misplaced,
    // The range is empty, or does not lie below the span.
    BadRange,
    // The list does not make a table's head, cells or a frame.
    Shape,
    // A limit of the sheet, or the memory for it, would be passed.
    Full,
    // A field is named that has not been entered.
    NoSuchField,
    // A field is named twice in one rule.
    Twice,
}

impl DraftFault {
    // The number that the refusal is known by.
    pub fn number(self) -> u8
        ensures { result ≡ fault_number self }
    {
        self.into()
    }
}

// The same number, as a conversion.
impl From<DraftFault> for u8 {
    ghost from_gives = { λ fault number. number ≡ fault_number fault };

    fn from(fault: DraftFault) -> u8 {
        match fault {
            DraftFault::Short => 8,
            DraftFault::Misplaced => 9,
            DraftFault::BadRange => 10,
            DraftFault::Shape => 11,
            DraftFault::Full => 12,
            DraftFault::NoSuchField => 13,
            DraftFault::Twice => 14,
        }
    }
}

// A refused entry: the draft as it was, and why.
#[derive(Drop)]
pub struct Refused {
    pub draft: Draft,
    pub fault: DraftFault,
}
