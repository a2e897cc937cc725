//! Laws of the definitions, each the contract of a function with an empty body: that the lines tell a threat and the duel
//! by it, when there is none, and which columns are played.
ghost use Rattle.std.specs.Prelude.{◌≡◌, ◌↔◌, ℕ, true, false, List, map, Ok};
ghost use Rattle.game_rules.specs.Board.{is_board};
ghost use Rattle.game_rules.specs.Groups.{Group};
ghost use Rattle.game_rules.specs.Position.{Position, board_of};
ghost use Rattle.game_rules.specs.Text.{game_at};
ghost use Rattle.odd_rules.specs.Threat.{Pair, is_threat};
ghost use Rattle.odd_rules.specs.Duel.{is_playable_list};
ghost use Rattle.proof_text.specs.Texts.{pieces, game_of, behind_game};
ghost use Rattle.odd_rules.specs.Refusal.{first_threat};
ghost use Rattle.std.specs.Prelude.{Some};
ghost use Rattle.play_text.specs.Play.{AllPlayed, NoThreat, move_line};
ghost use Rattle.threat_text.specs.Threats.{answers_from, threat_of};
ghost use Rattle.threat_text.specs.Told.{IsTold};

/// Whatever the input, its lines tell the first threat of its game's position and the duel by it, where there is one.
/// Black has no line in any position of the duel, and the threat never lacks an answer; White wins under perfect play.
pub fn the_lines_tell_the_duel()
    ensures { (bytes : List ℕ) → IsTold bytes (threat_of bytes).lines (threat_of bytes).end }
{}

/// A game's position is said to have no threat exactly where no group is one with any list of pairs.
pub fn no_threat_is_told_exactly_where_there_is_none()
    ensures { (bytes : List ℕ) (root : Position) → game_at (game_of (pieces bytes)) ≡ Ok root
        → ((threat_of bytes).end ≡ NoThreat) ↔ ((g : Group) (pairs : List Pair) → is_threat root g pairs ≡ false) }
{}

/// Black's columns that are legal at their turns are all played. So an input is played to its end that has the two lines
/// of a game whose position has a threat, and such columns, a line for each.
pub fn legal_columns_are_played()
    ensures columns { (p : Position) (g : Group) (pairs : List Pair) (at : ℕ) (columns : List ℕ) → is_board (board_of p) ≡ true → is_threat p g pairs ≡ true
        → is_playable_list pairs p columns ≡ true → (answers_from pairs p at (map move_line columns)).end ≡ AllPlayed }
    ensures input { (bytes : List ℕ) (root : Position) (g : Group) (pairs : List Pair) (columns : List ℕ) → game_at (game_of (pieces bytes)) ≡ Ok root
        → first_threat root ≡ Some (g, pairs) → behind_game (pieces bytes) ≡ map move_line columns → is_playable_list pairs root columns ≡ true
        → (threat_of bytes).end ≡ AllPlayed }
{}
