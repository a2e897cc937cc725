//! The rule Claimeven: a square on an odd row and the square above it. Black answers the lower one by the upper one, so
//! the upper one is never White's.
#![tactic(auto)]

mod claimeven;

pub use crate::claimeven::{Claimeven, list_claimeven, push_claimevens};
