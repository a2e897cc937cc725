//! A game line by line: each line of an input is a move of one side, by the letter of its column, and a player answers
//! it. The line of the answer is written and flushed before more of the input is read, so that whoever makes the moves
//! can read it before the next one. What a player answers is its own; how a turn is written, and why a line is no move,
//! is the same for each. No call takes memory.
#![tactic(auto)]

mod game_end;
mod player;
mod turn;
mod turns;

pub use game_end::{GameEnd, GameStop};
pub use player::Player;
pub use turn::{Turn, TurnEnd, turn_line};
pub use turns::play_turns;
