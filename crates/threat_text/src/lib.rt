//! The text of a game that is played by an odd threat of White's, as definitions that code cites: which lines are read,
//! what is written for the threat and for each move of Black's, and how it ends.
//!
//! The definitions stand in `specs/`, over those of `play_text`, which has the lines of an input, their faults and the
//! ends of play. Each function of `laws` is a law about the definitions: its contract is the theorem, and its body is
//! empty.
#![tactic(auto)]

pub mod laws;
