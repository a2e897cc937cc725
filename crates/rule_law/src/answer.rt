//! What the laws give to code over any rule.
ghost use Rattle.std.specs.Prelude.{◌≡◌, true, is_none};
ghost use Rattle.game_rules.specs.Position.{after_move};
ghost use Rattle.game_rules.specs.Squares.{is_playable};
ghost use Rattle.plan_rules.specs.Causes.{names_no_reply};
ghost use Rattle.rule_law.specs.Start.{IsStart, IsAnswer};

use crate::Rule;
use board_bits::{Position, Square};

/// What an instance answers to a move to a playable square; None exactly where the rule names no square. Where it fits
/// at the position, White is to move, the square is one of its zone, and the columns are filled below the zone, the
/// answer is a playable square of the zone, and the instance is calm after it.
pub fn answer_at_start<R: Rule>(rule: &R, p: &Position, last: Square) -> Option<Square>
    requires { is_playable p.now last ≡ true }
    ensures value { result ≡ R.reply rule.now (after_move p.now last.0) last }
    ensures missing { is_none result ≡ names_no_reply (R.kind rule.now) (R.zone rule.now) (after_move p.now last.0) last }
    ensures answers { IsStart (R.zone rule.now) (R.fitted rule.now) p.now last → IsAnswer (R.zone rule.now) (R.calm rule.now) p.now last result }
{
    let now = p.after(last.column());
    rule.reply(&now, last)
}
