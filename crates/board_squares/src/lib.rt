//! Sizes of boards, their columns, squares and lines, and sets of squares. How a set's squares lie in its number is said
//! here alone; `board_bits` keeps positions so, and hands these types on.
#![tactic(auto)]

mod line;
mod mask;
mod run;
mod size;

pub use game_rules::{Length, Way};
pub use line::MOST_IN_LINE;
pub use mask::{Mask, bits_determine_a_mask, board_word, place_of};
pub use run::has_run;
pub use size::{Column, MOST_COLS, MOST_SQUARES, Size, SizeFault, Square};
