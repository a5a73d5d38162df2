// What a settle tells.
ghost use Rattle.std.specs.Prelude.{Some};
ghost use Rattle.settle.specs.Grades.{grade_word};

use std::fmt;

// What the values that are left are worth.
#[derive(Clone, Copy, PartialEq, Eq, Debug)]
pub enum Grade {
    // Each value stands in a full setting.
    Exact,
    // Each value has support in every rule, and a full setting is not promised.
    Local,
    // No value is left in any row.
    Nothing,
}

impl fmt::Display for Grade {
    ghost output = { λ g. Some (grade_word g) };

    fn fmt<W: fmt::Write>(&self, f: &mut fmt::Formatter<W>) -> fmt::Result {
        match self {
            Grade::Exact => write!(f, "exact"),
            Grade::Local => write!(f, "local"),
            Grade::Nothing => write!(f, "none"),
        }
    }
}

// What became of the rows.
#[derive(Clone, Copy, PartialEq, Eq, Debug)]
pub struct Outcome {
    pub grade: Grade,
    // How many rounds were made over the rules.
    pub rounds: u32,
}
