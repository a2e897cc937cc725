//! The text that explains the plan chosen at a position, as definitions that code cites.
//!
//! The definitions stand in `specs/`, and each function of `laws` is a law about them: its contract is the theorem, and its
//! body is empty.
#![tactic(auto)]

pub mod laws;
