//! How plans are written, as definitions that code cites: the text of a square, a group, an instance of a rule, a
//! plan's line, and a reason for which a list is no plan; and how such texts are read.
//!
//! The definitions stand in `specs/`. Each function of `laws` is a law about them: its contract is the theorem, and its
//! body is empty.
#![tactic(auto)]

pub mod laws;
