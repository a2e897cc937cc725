//! Play by a plan: a session holds a plan and the position that the game has come to, and answers each of White's moves.
//! It takes no memory; an answer costs a look at the plan's zones.
#![tactic(auto)]

mod session;

pub use crate::session::{Reply, Session};
