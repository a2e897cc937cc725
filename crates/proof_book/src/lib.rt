//! A book of a proof's lemmas, kept whole, for whoever plays by the proof or looks for what its verdict rests on.
#![tactic(auto)]

mod book;

pub use book::{Book, Held};
pub use proof_lines::{Cite, Instance, LemmaView, LineView, Plan, Reason, Verdict};
