//! The choice of a plan at a position: the first of the sets of zones, in the order of the walk, that gives a plan, where
//! one of the first so many does.
//!
//! The walk goes through the sets depth first, one recursion for each zone of a set; its definitions and laws stand in
//! `walk_rules`. What a position alone decides is listed once a call: the fitting zones, and the groups of either side,
//! which are taken from a table of the board's. Only a set that leaves no square open is tested, group by group, up to the
//! first group without an answer. The one search of a standing answer serves that test and the list that is given. All
//! lists stand in the chooser, which is made once and lent, so no call takes memory.
#![tactic(auto)]

mod chooser;
mod full;
mod ground;
mod groups;
mod special;
mod standing;
mod table;
mod visit;
mod zones;

pub use crate::chooser::{Choice, Chooser, choose};
