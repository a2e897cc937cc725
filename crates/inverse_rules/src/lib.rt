//! The two inverses, and the rule that rests on them. A Lowinverse and a Highinverse own squares of two columns, from an
//! even row upwards, and promise of some of them that White never owns the square together with the one above it. A
//! Vertical is such a pair. A type has the squares that it is written with and nothing else; a square above one of them
//! is made by a call.
#![tactic(auto)]

mod ground;
mod highinverse;
mod lowinverse;
mod vertical;

pub use crate::highinverse::{Highinverse, list_highinverse, push_highinverses};
pub use crate::lowinverse::{Lowinverse, list_lowinverse, push_lowinverses};
pub use crate::vertical::{Vertical, list_vertical, push_verticals};
