//! What texts are made of, whatever they say: numbers in decimal, the letters of columns, squares, what stands on both
//! sides of a mark, the first word of a line, the two lines of a game, and short lines as they are being made. Each has one
//! spelling, which the definitions of the texts say; a number is read here alone, and a letter by `Size::column_named`
//! alone. No call takes memory.
#![tactic(auto)]

mod first_word;
mod game_text;
mod letters;
mod line;
mod marks;
mod number;
mod squares;

pub use board_bits::{Column, Game, Size, Square};
pub use first_word::{split_path, split_word};
pub use game_text::push_game;
pub use letters::letter_of;
pub use line::{LINE_ROOM, LineText, push_number, push_text};
pub use marks::split_once;
pub use number::{number_between, split_number};
pub use squares::push_square;
