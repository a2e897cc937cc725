//! A table of bounded size of what was found at positions. When it is full, the entry that was used longest ago goes. It
//! grows as it is used, and takes no memory for room that isn't used.
#![tactic(auto)]

mod table;

pub use board_bits::Question;
pub use table::{Found, MOST_ROOM, Table};
