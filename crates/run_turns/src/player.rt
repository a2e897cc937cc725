//! Who answers the moves of a game.
ghost use Rattle.std.specs.Prelude.{◌≡◌, ◌<◌, ℕ, true, length, Some, Err, IfOk, IfErr, OnOk};
ghost use Rattle.game_rules.specs.Position.{Position, board_of, is_legal};
ghost use Rattle.board_bits.specs.Move.{moved_into};
ghost use Rattle.play_text.specs.Play.{Turn};
ghost use Rattle.run_turns.specs.Turns.{turn_line};

use crate::turn::Turn;
use board_bits::{Column, MoveFault, Size};

/// A player who answers each move of the other side's.
pub trait Player {
    /// The position that the game has come to.
    ghost stands: { Self → Position };

    /// What the player makes of a legal column: the line that is written for it, and the player after it; or nothing,
    /// where there is no answer.
    ghost turn: { Self → ℕ → Turn Self };

    /// How many turns may come yet.
    ghost left: { Self → ℕ };

    /// The board of the game.
    fn size(&self) -> Size
        ensures { result ≡ board_of (stands self.now) };

    /// Plays the other side's man into the column, and then the player's answer, and gives both.
    ///
    /// `GameOver` comes exactly where the game has ended, else `ColumnFull` exactly where the column, which is on the
    /// board, has no room. Nothing is changed then.
    fn answer(&mut self, column: Column) -> Result<Turn, MoveFault>
        requires { column < length (stands self.old).columns }
        ensures legal { IfOk result (λ _. is_legal (stands self.old) column ≡ true) }
        ensures answered { IfOk result (λ made. turn self.old column ≡ Some (turn_line made, self.new)) }
        ensures fewer { OnOk result (left self.new < left self.old) }
        ensures refused { IfErr result (λ fault. moved_into (stands self.old) column ≡ Err fault) }
        ensures same { IfErr result (λ _. self.new ≡ self.old) };
}
