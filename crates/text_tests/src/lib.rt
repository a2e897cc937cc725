//! Tests of streams, of games from a number, of the table of what was found, and of the index of lemmas. A crate of their
//! own has them, as `rule_tests` says.
#![tactic(auto)]

#[cfg(test)]
mod games;
#[cfg(test)]
mod streams;
#[cfg(test)]
mod tables;
