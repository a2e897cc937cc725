//! The text of a game that one side plays by a whole proof, as definitions that code cites: what the side plays, which lines
//! are read, what is written for each move, and how it ends.
//!
//! The definitions stand in `specs/`. Each function of `laws` is a law about the definitions: its contract is the theorem,
//! and its body is empty.
#![tactic(auto)]

pub mod laws;
