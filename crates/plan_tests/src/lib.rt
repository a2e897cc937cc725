//! Tests of plans, of odd threats and of pools: what no run of the program shows. A crate of their own has them, as
//! `rule_tests` says.
#![tactic(auto)]

#[cfg(test)]
mod plans;
#[cfg(test)]
mod pools;
#[cfg(test)]
mod threats;
