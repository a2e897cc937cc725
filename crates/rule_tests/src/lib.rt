//! Tests of lines and of the nine rules: texts of games in, and what a person counted.
//!
//! A crate with tests is proved a second time with them, as a program that links all below it. So the tests of several
//! crates stand together, in a crate that has nothing else.
#![tactic(auto)]

#[cfg(test)]
mod bases;
#[cfg(test)]
mod claimevens;
#[cfg(test)]
mod groups;
#[cfg(test)]
mod inverses;
#[cfg(test)]
mod line_rules;
#[cfg(test)]
mod numbers;
#[cfg(test)]
mod squares;
