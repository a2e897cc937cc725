//! Laws of squares and groups, each the contract of a function with an empty body: what a set of squares is, what the
//! squares of a position are, and that groups are the lines of a board.
ghost use Rattle.std.specs.Prelude.{◌≡◌, ◌≢◌, ◌↔◌, ℕ, Bool, ◌<◌, ◌≤◌, true, None, List, length, AllPairs};
ghost use Rattle.std.specs.List.{list_any, list_all};
ghost use Rattle.game_rules.specs.Board.{Board, Square, is_board, on_board};
ghost use Rattle.game_rules.specs.Position.{Position, board_of, has_man, man_at, has_line, IsStacked};
ghost use Rattle.game_rules.specs.Squares.{has_square, squares_of_board, Precedes as SquarePrecedes, widest, squares_where, IsSetOf, is_empty, is_playable};
ghost use Rattle.game_rules.specs.Groups.{Group, squares_of, lies_on, has_group, groups_of, Precedes};
ghost use Rattle.game_rules.specs.declared.Side.{Side};
ghost use Rattle.game_rules.specs.declared.TheConstants.{MOST_GROUPS};

/// The squares of a board are exactly those on it, each once, in square order.
pub fn squares_stand_in_square_order()
    ensures squares { (board : Board) (u : Square) → has_square (squares_of_board board) u ≡ on_board board u }
    ensures order { (board : Board) → AllPairs SquarePrecedes (squares_of_board board) }
{}

/// A test that no square beyond the widest board passes has a set, and two sets with the same squares are one.
pub fn a_set_is_determined_by_its_squares()
    ensures some { (test : Square → Bool) → ((u : Square) → test u ≡ true → on_board widest u ≡ true) → IsSetOf test (squares_where test) }
    ensures one { (f g : Square → Bool) (us vs : List Square) → IsSetOf f us → IsSetOf g vs → ((u : Square) → f u ≡ g u) → us ≡ vs }
{}

/// Men stand on the board, where no column is higher than it.
pub fn men_stand_on_the_board()
    ensures { (p : Position) (side : Side) (u : Square) → IsStacked p → has_man p side u ≡ true → on_board (board_of p) u ≡ true }
{}

/// A square is playable exactly where it is empty and every square below it is filled.
pub fn a_playable_square_is_empty_over_filled_ones()
    ensures { (p : Position) (u : Square)
        → (is_playable p u ≡ true) ↔ ((is_empty p u ≡ true) × ((row : ℕ) → 1 ≤ row → row < u.1 → man_at p (u.0, row) ≢ None)) }
{}

/// The groups of a board are exactly its lines, each once, in group order, and at most `MOST_GROUPS`. Two groups with the same
/// squares are one group, so each line stands there once as a set of squares too.
pub fn groups_are_the_lines_of_the_board()
    ensures lines { (board : Board) (g : Group) → has_group (groups_of board) g ≡ lies_on board g }
    ensures order { (board : Board) → AllPairs Precedes (groups_of board) }
    ensures determined { (board : Board) (g h : Group) → lies_on board g ≡ true → lies_on board h ≡ true
        → ((u : Square) → has_square (squares_of g) u ≡ has_square (squares_of h) u) → g ≡ h }
    ensures most { (board : Board) → is_board board ≡ true → length (groups_of board) ≤ MOST_GROUPS }
{}

/// A side has a line exactly where it has a man on every square of some group.
pub fn a_line_is_a_whole_group()
    ensures { (p : Position) (side : Side) → has_line p side ≡ list_any (λ g. list_all (has_man p side) (squares_of g)) (groups_of (board_of p)) }
{}
