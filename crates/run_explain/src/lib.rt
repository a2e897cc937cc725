//! The command `explain`: a game is read, and the plan that is chosen at its position is written, with the squares that
//! each instance owns and with the instance that answers each group of White's. It takes no memory.
#![tactic(auto)]

mod command;
mod explained;
mod writing;

pub use command::explain;
pub use explained::Explained;
