//! The rules of directly playable squares: Baseinverse, two of them, of which White gets one at most, and Baseclaim,
//! three of them and the square above one. A type has the squares that it is written with and nothing else; a square
//! above one of them is made by a call.
#![tactic(auto)]

mod baseclaim;
mod baseinverse;

pub use crate::baseclaim::{Baseclaim, list_baseclaim, push_baseclaims};
pub use crate::baseinverse::{Baseinverse, list_baseinverse, push_baseinverses};
