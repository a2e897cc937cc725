//! Tests of the lines of proofs and of plans, of the check of lines, and of the marks of a game's moves: mostly texts in,
//! and what comes of them. A crate of their own has them, as `rule_tests` says.
#![tactic(auto)]

#[cfg(test)]
mod checked_lines;
#[cfg(test)]
mod lines_of_plans;
#[cfg(test)]
mod lines_of_proofs;
#[cfg(test)]
mod marks;
