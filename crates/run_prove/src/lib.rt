//! The command `prove`: a game is read, and a proof of its value is written, each line as soon as it is known.
#![tactic(auto)]

mod command;
mod proved;
mod writing;

pub use command::prove;
pub use proof_text::Version;
pub use proved::{Proved, Proving};
