//! The command `threat`: a game, and then Black's columns, a line for each. Where the game's position has an odd threat,
//! the first one is written, and each of Black's moves is answered by it as it comes, with a line that has both squares;
//! so the command is a player of `run_turns` behind two lines that it reads and one that it writes first. It takes no
//! memory.
#![tactic(auto)]

mod command;
mod no_threat;
mod threat_line;
mod threat_player;

pub use command::threat;
pub use no_threat::{NoThreat, ThreatEnd};
