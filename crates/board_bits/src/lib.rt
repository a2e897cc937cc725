//! The board: positions and their moves, games, and the reading of a game text; with the sizes, squares and sets of
//! squares of `board_squares`. A position is the men of its columns, as in `game_rules`, whose definitions each contract
//! here cites; how the men are kept is known to this crate alone.
#![tactic(auto)]

mod game;
mod game_text;
mod men_number;
mod order;
mod position;
mod turned;
mod word;

pub use board_squares::{
    Column, MOST_COLS, MOST_IN_LINE, MOST_SQUARES, Mask, Size, SizeFault, Square,
    bits_determine_a_mask, place_of,
};
pub use game::Game;
pub use game_rules::{End, InputFault, InputKind, Length, Question, Side, Way};
pub use game_text::{read_game, read_game_moves};
pub use men_number::MenNumber;
pub use order::centre_out;
pub use position::{MoveFault, Position};
