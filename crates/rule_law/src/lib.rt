//! What each of the nine rules promises to whatever builds on it: its squares, where it fits, its replies, what it
//! bars, and the laws that make a plan of such rules hold. `plan_rules` has the definitions and their proofs; a crate
//! of a rule has its type, and proves here that its calls are those of the definitions.
#![tactic(auto)]

mod answer;
mod kept;
mod listing;
mod rule;

pub use answer::answer_at_start;
pub use board_bits::{MOST_COLS, Mask, Position, Side, Size, Square, Way};
pub use kept::Kept;
pub use listing::{Listed, Taker, list_fitting, list_pairs, list_pairs_beside, list_triples};
pub use plan_rules::Kind;
pub use rule::Rule;
