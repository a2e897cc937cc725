//! Groups: the lines of a board. A group is determined by its anchor, its direction and its length, and a set of groups
//! by its board and the anchors that it has in each direction. Each contract cites the groups of `game_rules`.
#![tactic(auto)]

mod group;
mod group_set;

pub use game_rules::Way;
pub use group::{GroupId, group_anchor, group_at, group_length, group_mask, group_way, groups};
pub use group_set::{GroupSet, free_for};
