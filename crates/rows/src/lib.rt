// A row is a finite set of small whole numbers: the values that a field may still take.
//
// `Row` says what every kind of row does, by the set that a record reads as. Every record of a
// kind reads as some set, so no call asks anything of the records that it is given.
#![tactic(auto)]

ghost use Rattle.std.specs.Prelude.{◌≡◌, ℕ, ◌<◌, ◌≤◌, Bool, true, false, Decides};
ghost use Rattle.rows.specs.Values.{Values, Same, from_to, without, both, less, up_to, Empty, Meet, how_many, Least, Greatest};

pub mod laws;
pub mod listing;
pub mod run;

pub trait Row: Copy {
    // The set that a record reads as.
    ghost values: { Self → Values };

    // The span: how many values a record can hold, the numbers below it.
    const SPAN: usize;

    ghost SPAN: { ℕ };

    // The span, for code that asks it of a call.
    fn value_count() -> usize
        ensures { result ≡ SPAN }
    {
        Self::SPAN
    }

    // All values from lo to hi; none if lo is above hi, or hi is not below the span.
    fn make(lo: u8, hi: u8) -> Self
        ensures { Same (values result) (from_to SPAN lo hi) };

    // Whether the row has the value.
    fn has(self, v: u8) -> bool
        ensures { result ≡ values self v };

    // The row with the value taken out.
    fn without(self, v: u8) -> Self
        ensures { Same (values result) (without (values self) v) };

    // The values that both rows have.
    fn common(self, other: Self) -> Self
        ensures { Same (values result) (both (values self) (values other)) };

    // Whether the rows have a value in common.
    fn meets(self, other: Self) -> bool
        ensures { Decides result (Meet (values self) (values other)) };

    // How many values the row has.
    fn size(self) -> usize
        ensures { result ≡ how_many SPAN (values self) };

    // The values that the other row does not have.
    fn minus(self, other: Self) -> Self
        ensures { Same (values result) (less (values self) (values other)) }
    {
        let last = (Self::SPAN - 1) as u8;
        let mut left = self;
        for v in 0..=last {
            if other.has(v) {
                left = left.without(v);
            }
        }
        left
    }

    // The values that are not above v.
    fn at_most(self, v: u8) -> Self
        ensures { Same (values result) (up_to (values self) v) }
    {
        // The range has to end below the span: one that does not is empty.
        let last = (Self::SPAN - 1) as u8;
        self.common(Self::make(0, v.min(last)))
    }

    // Whether the row has no value.
    fn is_empty(self) -> bool
        ensures { Decides result (Empty (values self)) }
    {
        self.size() == 0
    }

    ghost positive: { 0 < SPAN };

    ghost small: { SPAN ≤ 256 };

    ghost inside: { (r : Self) (v : ℕ) → values r v ≡ true → v < SPAN };
}

// A kind that also tells its least and its greatest value.
pub trait OrderedRow: Row {
    fn least(self) -> Option<u8>
        ensures { Least (Self.Row.values self) result };

    fn greatest(self) -> Option<u8>
        ensures { Greatest (Self.Row.values self) result };
}
