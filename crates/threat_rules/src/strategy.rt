//! What a threat is worth: by its answers alone White keeps Black from a line and makes one, whatever Black plays.
ghost use Rattle.std.specs.Prelude.{◌≡◌, ℕ, true, List, Some, slice_get};
ghost use Rattle.game_rules.specs.Board.{Square};
ghost use Rattle.game_rules.specs.Position.{Position};
ghost use Rattle.game_rules.specs.Value.{value};
ghost use Rattle.game_rules.specs.declared.End.TheVariants as ends;
ghost use Rattle.odd_rules.specs.Threat.{target};
ghost use Rattle.odd_rules.specs.Duel.{threat_duel, is_playable_list, IsTurn, IsHeld};

use crate::Threat;

/// What every threat promises. For each list of Black's columns of which each is legal at its turn, each column opens
/// a turn, in which Black's move neither makes a line nor ends the game, and White has the threat's answer, a
/// playable square. At each position of a duel, those right after Black's moves among them, Black has no line, and
/// where the game has ended White has one. And under perfect play White wins from the threat's position. It doesn't
/// promise that a won position has a threat.
pub fn a_threat_wins_for_white(threat: &Threat)
    ensures turns { (t : Square) (columns : List ℕ) (i column : ℕ) → target threat.now.at threat.now.group ≡ Some t
        → is_playable_list threat.now.pairs threat.now.at columns ≡ true → slice_get columns i ≡ Some column
        → IsTurn threat.now.at t threat.now.pairs (threat_duel threat.now.pairs threat.now.at columns) i column }
    ensures held { (columns : List ℕ) (i : ℕ) (q : Position) → slice_get (threat_duel threat.now.pairs threat.now.at columns) i ≡ Some q → IsHeld q }
    ensures value { value threat.now.at ≡ ends.White }
{
    // its contract says that the group and the pairs are a threat, on a board
    threat.at().has_a_board();
}
