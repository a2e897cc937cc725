//! The command `drill`: games are made from a number, each is searched, and a line with the counts of what was found is
//! written. It reads nothing, and takes memory for a table of what was found alone, a new one for each game.
#![tactic(auto)]

mod command;
mod drilled;

pub use command::drill;
pub use drilled::{Drilled, Drilling};
