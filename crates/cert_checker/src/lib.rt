//! The checking of a proof, line by line: a line is accepted exactly where the definitions of `proof_text` refuse it by
//! no name, and refused by the name that they give it. Since right lemmas claim what is true of the value, and a right
//! verdict is the value of the root, what is accepted needs no trust in what wrote it.
#![tactic(auto)]

mod checker;
mod claims;
mod index;
mod known;
mod moves;
mod reasons;
mod stops;
mod trail;

pub use checker::Checker;
pub use index::MirrorIndex;
pub use known::MOST_LEMMAS;
pub use proof_lines::{Line, LineView, PlanFault, Verdict};
pub use stops::{Accepted, AddStop, Refusal, Why};
