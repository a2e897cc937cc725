//! The key, in 24 bytes: the number of both sides' men, the board's size and the question. A contract sees the position and
//! the question. The hash is fed the number and not the board's size, since the positions of one map are all of one board.
ghost use Rattle.std.specs.Prelude.{◌≡◌};
ghost use Rattle.position_key.specs.Keys.{same_key, hashed, alike_keys, same_key_equiv, same_key_partial};

use board_bits::{MenNumber, Position, Question, Size};
use std::hash::{Hash, Hasher};
use std::marker::Model;

/// A position and what is asked of it. Two are equal where the positions are the same and the question is one.
#[derive(Drop)]
pub struct Key {
    men: MenNumber,
    size: Size,
    question: Question,
}

impl Model for Key {
    ghost use Rattle.position_key.specs.Keys.{Key as Asked};

    ghost Value = { Asked };

    ghost use Rattle.position_key.specs.KeyFields.{key_of, IsKey};

    ghost view = { key_of };

    ghost invariant = { IsKey };
}

impl Key {
    /// The key of this position and this question.
    pub fn of(position: &Position, question: Question) -> Key
        ensures { result ≡ record { position = position.now; question = question } }
    {
        Key {
            men: MenNumber::of(position),
            size: position.size(),
            question,
        }
    }
}

impl PartialEq for Key {
    ghost eq = { same_key };

    ghost laws = { same_key_partial };

    fn eq(&self, other: &Key) -> bool {
        self.size.same(&other.size) && self.men.same(&other.men) && self.question == other.question
    }
}

impl Eq for Key {
    ghost laws = { same_key_equiv };
}

impl Hash for Key {
    ghost hash_input = { hashed };

    ghost respects_eq = { alike_keys };

    fn hash<H: Hasher>(&self, state: &mut H) {
        state.write_u128(self.men.number());
        state.write_u8(match self.question {
            Question::WhiteWins => 0,
            Question::BlackWins => 1,
        });
    }
}
