//! The command `annotate`: a game is read, its last moves are marked as mistakes or not, and a line is written for each of
//! them. Each position before or after one of these moves is searched once, as `prove` searches it, with a table of its own;
//! nothing is written before all are.
#![tactic(auto)]

mod annotated;
mod command;
mod searcher;
mod writing;

pub use annotated::{Annotated, Annotating};
pub use command::annotate;
