//! Tools for whole games and whole proofs: the marks of a game's moves, over anything that tells the value of a position; which
//! lemmas of a proof its verdict rests on, and the text that has these alone.
#![tactic(auto)]

mod marks;
mod printed;
mod reach;

pub use cert_format::{Verdict, Version, head_of};
pub use marks::{Valuer, annotate, position_after};
pub use printed::print_trimmed;
pub use reach::{Reach, reached};
pub use tool_text::Mark;
