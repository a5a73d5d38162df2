// Tests of narrowing against plain enumeration: every line of a small rule is listed, and a value
// has to be left exactly when it stands in an allowed one. Shortcuts that would narrow a table
// wrongly are tried besides.
#![tactic(auto)]

#[cfg(test)]
mod frames_test;
#[cfg(test)]
mod shortcuts_test;
#[cfg(test)]
mod small;
#[cfg(test)]
mod tables_test;
