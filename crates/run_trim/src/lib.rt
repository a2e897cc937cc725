//! The command `trim`: a proof is read, and written with those lemmas alone on which its verdict rests, numbered anew. All of
//! its lemmas are kept in a book while it is read, and nothing is written before the end of the input.
#![tactic(auto)]

mod command;
mod trimmed;
mod writing;

pub use command::trim;
pub use trimmed::Trimmed;
