//! Games made from a number, and the count of what was told of each.
//!
//! The games are a list that is defined in `specs/Games.antt`. When the counts are right of some games is defined in
//! `specs/Summary.antt`, whatever a game costs. Nothing here searches, and no call takes memory.
#![tactic(auto)]

mod games;
mod tally;

pub use games::{each_game_comes_by_legal_moves, next_game, the_generator_stays_in_its_range};
pub use tally::Tally;
