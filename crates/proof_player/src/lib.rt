//! Play by a whole proof: the side that a lemma at the root serves plays by the lemmas of a book, and answers each move of the
//! other side's. After the book and the player are made no move takes memory: it costs a look at a lemma or two and at the
//! mirror images that they name, and where a plan begins the check of its list.
#![tactic(auto)]

mod follow;
mod place;
mod plans;
mod reasons;
mod seen;

pub use crate::follow::{Follow, FollowReply};
