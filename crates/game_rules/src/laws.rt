//! Laws of the definitions, each the contract of a function with an empty body. The first group shows that positions,
//! kept as the men of each column, are what the rules of the game say of squares and lines; the second is what proofs
//! about values and costs rest on.
ghost use Rattle.std.specs.Prelude.{◌≡◌, ◌↔◌, ℕ, Bool, map, ◌+◌, ◌%◌, ◌<◌, ◌≤◌, true, false, not, cond, ◌||◌, List, length, is_some};
ghost use Rattle.std.specs.List.{list_any, list_all};
ghost use Rattle.game_rules.specs.Board.{Board, Square, on_board};
ghost use Rattle.game_rules.specs.Position.{Position, board_of, empty_position, has_man, man_at, man_count, side_to_move, other, same_side, has_room, is_legal, after_move, played, end_of, empty_count, moved, IsStacked, same_position};
ghost use Rattle.game_rules.specs.Value.{value, wins, best_of};
ghost use Rattle.game_rules.specs.Cost.{count, count_until, decides, moved_out};
ghost use Rattle.game_rules.specs.Laws.{HasLine, IsFilled, DropsMan};
ghost use Rattle.game_rules.specs.declared.Side.{Side};
ghost use Rattle.game_rules.specs.declared.Side.TheVariants as sides;
ghost use Rattle.game_rules.specs.declared.End.{End};
ghost use Rattle.game_rules.specs.declared.End.TheVariants as ends;

/// White's and Black's squares are disjoint.
pub fn sides_are_disjoint()
    ensures { (p : Position) (s : Square) → has_man p sides.White s ≡ true → has_man p sides.Black s ≡ true → ⊥ }
{}

/// A position is determined by its board and the two sets of squares.
pub fn squares_determine_the_position()
    ensures { (p q : Position) → board_of p ≡ board_of q → ((side : Side) (s : Square) → has_man p side s ≡ has_man q side s) → p ≡ q }
{}

/// The test of two positions says whether they are the same.
pub fn same_position_is_equality()
    ensures { (p q : Position) → (same_position p q ≡ true) ↔ (p ≡ q) }
{}

/// A legal move adds exactly the lowest empty square of its column to the squares of the side to move.
pub fn a_move_drops_one_man()
    ensures { (p : Position) (column : ℕ) → is_legal p column ≡ true → DropsMan p column }
{}

/// White is to move exactly where the number of men is even; a move adds one man, so the sides take turns.
pub fn sides_take_turns()
    ensures parity { (p : Position) → (side_to_move p ≡ sides.White) ↔ (man_count p % 2 ≡ 0) }
    ensures more { (p : Position) (column : ℕ) → is_legal p column ≡ true → man_count (after_move p column) ≡ man_count p + 1 }
    ensures turns { (p : Position) (column : ℕ) → is_legal p column ≡ true → side_to_move (after_move p column) ≡ other (side_to_move p) }
    ensures moves { (board : Board) (columns : List ℕ) (p : Position) → played (empty_position board) columns ≡ Some p → man_count p ≡ length columns }
{}

/// Along lists of legal moves the game has ended with a side exactly where that side has a line, and with a draw
/// exactly where the board is full and neither has one.
pub fn a_game_ends_by_a_line_or_a_full_board()
    ensures won { (board : Board) (columns : List ℕ) (p : Position) → played (empty_position board) columns ≡ Some p
        → (end_of p ≡ Some ends.White) ↔ HasLine p sides.White }
    ensures lost { (board : Board) (columns : List ℕ) (p : Position) → played (empty_position board) columns ≡ Some p
        → (end_of p ≡ Some ends.Black) ↔ HasLine p sides.Black }
    ensures drawn { (p : Position) → (end_of p ≡ Some ends.Draw) ↔ (IsFilled p × (HasLine p sides.White → ⊥) × (HasLine p sides.Black → ⊥)) }
{}

/// Along lists of legal moves at most one side has a line.
pub fn at_most_one_side_has_a_line()
    ensures { (board : Board) (columns : List ℕ) (p : Position) → played (empty_position board) columns ≡ Some p
        → HasLine p sides.White → HasLine p sides.Black → ⊥ }
{}

/// Along lists of legal moves no column holds more men than the board has rows.
pub fn columns_stay_within_the_rows()
    ensures { (board : Board) (columns : List ℕ) (p : Position) → played (empty_position board) columns ≡ Some p → IsStacked p }
{}

/// The value at an end, and while the game goes on: the best of the values after each move.
pub fn value_is_the_best_of_the_moves()
    ensures ended { (p : Position) (e : End) → end_of p ≡ Some e → value p ≡ e }
    ensures going { (p : Position) → end_of p ≡ None → value p ≡ best_of (side_to_move p) (map value (moved p)) }
{}

/// A side wins with it to move exactly where it wins after some legal move, and with the other side to move exactly
/// where it wins after each.
pub fn a_side_wins_by_some_move_or_against_all()
    ensures own { (side : Side) (p : Position) → end_of p ≡ None → side_to_move p ≡ side → wins side p ≡ list_any (wins side) (moved p) }
    ensures against { (side : Side) (p : Position) → end_of p ≡ None → side_to_move p ≡ other side → wins side p ≡ list_all (wins side) (moved p) }
{}

/// A move fills one empty square, and while the game goes on there is one.
pub fn a_move_fills_one_square()
    ensures fills { (p : Position) (column : ℕ) → has_room p column ≡ true → empty_count (after_move p column) + 1 ≡ empty_count p }
    ensures going { (p : Position) → end_of p ≡ None → 0 < empty_count p }
{}

/// The count of the plain search, whatever set of positions is closed: one where the question is answered without a
/// move, else one more than the counts of the moves from the middle outwards, up to the first that decides. And the
/// side wins, with it to move exactly where a move decides, else exactly where none does.
pub fn a_search_counts_its_moves()
    ensures closed { (closed : Side → Position → Bool) (side : Side) (p : Position) → (is_some (end_of p) || closed side p) ≡ true → count closed side p ≡ 1 }
    ensures going { (closed : Side → Position → Bool) (side : Side) (p : Position) → end_of p ≡ None → closed side p ≡ false
        → count closed side p ≡ 1 + count_until (decides side p) (count closed side) (moved_out p) }
    ensures answer { (side : Side) (p : Position) → end_of p ≡ None
        → wins side p ≡ cond (same_side side (side_to_move p)) (list_any (decides side p) (moved_out p)) (not (list_any (decides side p) (moved_out p))) }
{}
