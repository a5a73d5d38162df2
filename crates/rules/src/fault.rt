// Why a narrowing is refused.
ghost use Rattle.std.specs.Prelude.{◌≡◌};
ghost use Rattle.rules.specs.Books.{fault_number};

#[derive(Clone, Copy, PartialEq, Eq, Debug)]
pub enum NarrowFault {
    // The rule is not lawful for so many fields, there are too few rows, or there is no such rule.
    Unfit,
}

impl NarrowFault {
    // The number that the refusal is known by.
    pub fn number(self) -> u8
        ensures { result ≡ fault_number self }
    {
        self.into()
    }
}

// The same number, as a conversion.
impl From<NarrowFault> for u8 {
    ghost from_gives = { λ fault number. number ≡ fault_number fault };

    fn from(fault: NarrowFault) -> u8 {
        match fault {
            NarrowFault::Unfit => 8,
        }
    }
}
