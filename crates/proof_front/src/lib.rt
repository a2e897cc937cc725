//! The front of a position for the question whether a side wins: a tree of positions with a proof number and a disproof
//! number at each node, which grows by its most-proving leaf. Its definitions stand in `front_rules`.
//!
//! The tree lies in a pool of slots of a fixed size, each node with the slot of its first child and of the next node beside
//! it, so that a function on a row of nodes follows the definition line by line. An expansion goes down to the leaf by one
//! path and comes back by it, renewing the numbers of the nodes on it, and stops where neither number of a node changed.
//! All memory is taken when the front is made; the chooser of plans is lent.
#![tactic(auto)]

mod front;
mod growing;
mod judging;
mod node;
mod rows;

pub use front::{Front, Grown};
pub use front_rules::Count;
pub use rule_chooser::Chooser;
