//! The command `follow`: a proof of either version, and then the other side's columns, a line for each. The proof is read and
//! judged up to its verdict, line by line as every proof is, and its lemmas are kept in a book. The holder plays by the lemma
//! that the verdict names for it: so the command is a player of `run_turns` behind a proof that it reads. A lemma takes memory as
//! it is read, and no move does.
#![tactic(auto)]

mod command;
mod follow_player;
mod not_followed;
mod opening;
mod verdict;

pub use command::follow;
pub use not_followed::{FollowEnd, NotFollowed};
