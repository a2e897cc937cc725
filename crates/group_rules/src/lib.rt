//! The rules that rest on a line of Black's: Aftereven, Before and Specialbefore. Where White would own a set that one
//! of them bars, all of the line would be Black's, and the game would have ended before. A type has the line and the
//! squares that it is written with and nothing else.
#![tactic(auto)]

mod aftereven;
mod before;
mod line;
mod specialbefore;

pub use crate::aftereven::{Aftereven, list_aftereven, push_afterevens};
pub use crate::before::{Before, list_before, push_befores};
pub use crate::line::squares_below;
pub use crate::specialbefore::{Specialbefore, list_specialbefore, push_specialbefores};
pub use open_groups::{GroupId, free_for, group_mask};
pub use rule_law::{Kept, Kind, Mask, Position, Rule, Side, Square};
