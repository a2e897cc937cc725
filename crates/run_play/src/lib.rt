//! The command `play`: a game, a plan at its position, and then White's columns, a line for each. Each of White's moves
//! is answered by the plan as it comes, with a line that has both squares; so the command is a player of `run_turns`
//! behind three lines that it reads first. It takes no memory.
#![tactic(auto)]

mod command;
mod head;
mod no_plan;
mod plan_line;
mod plan_player;

pub use command::play;
pub use no_plan::{NoPlan, PlayEnd};
