// Tests of drafts: every refusal of every entry, alone and beside others, in every kind; the limits;
// what an accepted entry writes; and what the own book of a draft tells.
#![tactic(auto)]

#[cfg(test)]
mod book_test;
#[cfg(test)]
mod lent;
#[cfg(test)]
mod limits_test;
#[cfg(test)]
mod refusals_test;
#[cfg(test)]
mod sheet;
#[cfg(test)]
mod written_test;
