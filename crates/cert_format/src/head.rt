//! The head of a proof.
ghost use Rattle.std.specs.Prelude.{◌≡◌};
ghost use Rattle.game_rules.specs.Game.{board_played};
ghost use Rattle.proof_text.specs.Texts.{head_of};

use proof_lines::first_line;
use proof_text::Version;
use text_words::{Game, LineText, push_game, push_text};

/// The head of a proof of this version: the line that names it, and the two lines of the game.
pub fn head_of(version: Version, game: &Game) -> LineText
    ensures { result.items ≡ head_of version (board_played game.now) game.now.moves }
{
    let mut head = LineText::new();
    push_text(&mut head, first_line(version));
    head.push(b'\n');
    push_game(&mut head, game);
    head
}
