//! The odd threat in code: whether a group and a list of pairs are one, why not, White's answers, and the first
//! threat of a position. What a threat is, and that White wins by it, stands in `odd_rules`. No call takes memory.
#![tactic(auto)]

mod answered;
mod check;
mod fault;
mod first;
mod pairs;
mod strategy;
mod target;
mod threat;

pub use crate::fault::ThreatFault;
pub use crate::strategy::a_threat_wins_for_white;
pub use crate::threat::{MOST_PAIRS, Threat};
