//! The men of a position apart from its board, in one number of 16 bytes at a multiple of 8: what is kept of positions of
//! one board.
ghost use Rattle.std.specs.Prelude.{◌≡◌, ◌==◌};
ghost use Rattle.game_rules.specs.Board.{Board};
ghost use Rattle.game_rules.specs.Position.{board_of, same_position};
ghost use Rattle.board_bits.specs.MenNumber.{men_number, position_read, AreMen};

use crate::word::Word;
use crate::{Position, Side};
use std::marker::Model;

/// Both sides' men as one number: White's word once and Black's twice, so that a man counts one or two at its square.
#[derive(Clone, Copy, Drop)]
pub struct MenNumber {
    word: Word,
}

impl Model for MenNumber {
    ghost use Rattle.std.specs.Prelude.{ℕ};

    ghost Value = { ℕ };

    ghost view = { λ men. men.word };

    ghost inverse = { λ number. record { word = number } };
}

impl MenNumber {
    /// That of a position's men, which gives the position back with its board.
    pub fn of(position: &Position) -> MenNumber
        ensures value { result ≡ men_number position.now }
        ensures men { AreMen (board_of position.now) result }
        ensures back { position_read (board_of position.now) result ≡ position.now }
    {
        MenNumber {
            word: Word::of(position.word(Side::White) + 2 * position.word(Side::Black)),
        }
    }

    /// The number itself.
    pub fn number(&self) -> u128
        ensures { result ≡ self.now }
    {
        self.word.number()
    }

    /// Whether the numbers are the same. On one board they are so exactly where the positions are.
    pub fn same(&self, other: &MenNumber) -> bool
        ensures value { result ≡ (self.now == other.now) }
        ensures positions { (b : Board) → AreMen b self.now → AreMen b other.now → result ≡ same_position (position_read b self.now) (position_read b other.now) }
    {
        self.number() == other.number()
    }
}
