//! A position and what is asked of it, as the key of a map. The table of a search and the index of a proof's lemmas find
//! by it what they keep.
#![tactic(auto)]

mod key;

pub use board_bits::Question;
pub use key::Key;
