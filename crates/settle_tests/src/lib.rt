// Tests of what is built over any book, with a book written outside the planner, which has only
// what a book must have.
#![tactic(auto)]

pub mod differing;
pub mod record;
#[cfg(test)]
mod tests;
