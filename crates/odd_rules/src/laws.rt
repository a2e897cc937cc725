//! Laws of the odd threat, each the contract of a function with an empty body.
ghost use Rattle.std.specs.Prelude.{◌≡◌, ◌↔◌, ℕ, true, false, List, Some, None, is_none, slice_get};
ghost use Rattle.game_rules.specs.Board.{Square, is_board};
ghost use Rattle.game_rules.specs.Position.{Position, board_of, is_legal};
ghost use Rattle.game_rules.specs.Value.{value, wins};
ghost use Rattle.game_rules.specs.Groups.{Group, Precedes};
ghost use Rattle.game_rules.specs.declared.Side.TheVariants as sides;
ghost use Rattle.game_rules.specs.declared.End.TheVariants as ends;
ghost use Rattle.odd_rules.specs.Threat.{Pair, target, is_threat, IsThreat};
ghost use Rattle.odd_rules.specs.Duel.{after_turns, threat_duel, is_playable_list, Stands, IsAnswered, IsTurn, IsHeld};
ghost use Rattle.odd_rules.specs.Refusal.{ThreatFault, threat_refusal, first_threat, IsRefusal};

/// A threat in words of squares and lines.
pub fn a_threat_in_words()
    ensures { (p : Position) (g : Group) (pairs : List Pair) → (is_threat p g pairs ≡ true) ↔ ((t : Square) × IsThreat p g pairs t) }
{}

/// From a threat, after any of Black's legal moves and White's answers: White has a line and Black has none, or the
/// game goes on and all of this holds. The board is the same, Black is to move, and the men of the threat's position
/// are still there. The target is empty, above an odd number of men; each other column has an even number of men or
/// as many as it had. In each pair's columns nothing changed, or both have an even number of men and a square of the
/// pair is White's. Black has no safe square.
pub fn a_threat_is_kept_whatever_black_plays()
    ensures { (p : Position) (g : Group) (pairs : List Pair) (t : Square) (columns : List ℕ) (q : Position) → is_board (board_of p) ≡ true
        → is_threat p g pairs ≡ true → target p g ≡ Some t → after_turns pairs p columns ≡ Some q → Stands p t pairs q }
{}

/// There each legal move of Black's makes no line and doesn't end the game, White's answer is a playable square, and
/// after it White has a line or all is kept.
pub fn white_always_has_an_answer()
    ensures { (p : Position) (g : Group) (pairs : List Pair) (t : Square) (columns : List ℕ) (q : Position) (column : ℕ) → is_board (board_of p) ≡ true
        → is_threat p g pairs ≡ true → target p g ≡ Some t → after_turns pairs p columns ≡ Some q → is_legal q column ≡ true → IsAnswered p t pairs q column }
{}

/// In the duel over columns of which each is legal at its turn, each column opens a turn: Black's move and White's
/// answer stand there one after the other, and all that a threat keeps holds before it. At each position of a duel,
/// those right after Black's moves among them, Black has no line, and where the game has ended White has one. So no
/// move of Black's fills the board.
pub fn black_has_no_line_in_a_duel()
    ensures turns { (p : Position) (g : Group) (pairs : List Pair) (t : Square) (columns : List ℕ) (i column : ℕ) → is_board (board_of p) ≡ true
        → is_threat p g pairs ≡ true → target p g ≡ Some t → is_playable_list pairs p columns ≡ true → slice_get columns i ≡ Some column
        → IsTurn p t pairs (threat_duel pairs p columns) i column }
    ensures held { (p : Position) (g : Group) (pairs : List Pair) (columns : List ℕ) (i : ℕ) (q : Position) → is_board (board_of p) ≡ true
        → is_threat p g pairs ≡ true → slice_get (threat_duel pairs p columns) i ≡ Some q → IsHeld q }
{}

/// Where there is a threat, White wins under perfect play.
pub fn a_threat_wins()
    ensures wins { (p : Position) (g : Group) (pairs : List Pair) → is_board (board_of p) ≡ true → is_threat p g pairs ≡ true → wins sides.White p ≡ true }
    ensures value { (p : Position) (g : Group) (pairs : List Pair) → is_board (board_of p) ≡ true → is_threat p g pairs ≡ true → value p ≡ ends.White }
{}

/// The first threat is one, and no earlier group is one with whatever pairs; and there is none exactly where no group
/// is one with any list of pairs.
pub fn the_first_threat()
    ensures is { (p : Position) (g : Group) (pairs : List Pair) → first_threat p ≡ Some (g, pairs) → is_threat p g pairs ≡ true }
    ensures first { (p : Position) (g : Group) (pairs : List Pair) → first_threat p ≡ Some (g, pairs)
        → (h : Group) (others : List Pair) → Precedes h g → is_threat p h others ≡ false }
    ensures none { (p : Position) → (first_threat p ≡ None) ↔ ((g : Group) (pairs : List Pair) → is_threat p g pairs ≡ false) }
{}

/// A group and a list of pairs have no refusal exactly where they are a threat.
pub fn what_is_not_refused_is_a_threat()
    ensures { (p : Position) (g : Group) (pairs : List Pair) → is_none (threat_refusal p g pairs) ≡ is_threat p g pairs }
{}

/// They are refused for a fault exactly where the fault's own condition holds and that of no fault before it: White is
/// to move; the game has ended; the group has no target; the first member that is no pair or shares a column with an
/// earlier one; the first column, from the left, with an odd number of men that is in no pair; the first group, in
/// group order, without a White man that has no safe square and no whole pair.
pub fn each_refusal_in_words()
    ensures { (p : Position) (g : Group) (pairs : List Pair) (fault : ThreatFault) → (threat_refusal p g pairs ≡ Some fault) ↔ IsRefusal p g pairs fault }
{}
