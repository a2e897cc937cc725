//! Laws of the mirror image of a position, each the contract of a function with an empty body: it is the position seen
//! from the other side of the board, the game goes the same way from it, and it has the same value.
ghost use Rattle.std.specs.Prelude.{◌≡◌, ℕ, ◌<◌, List, map, length, option_map};
ghost use Rattle.std.specs.List.{AllByRecursion};
ghost use Rattle.game_rules.specs.Board.{Square};
ghost use Rattle.game_rules.specs.Position.{Position, board_of, man_at, side_to_move, has_line, end_of, is_legal, after_move, played};
ghost use Rattle.game_rules.specs.Value.{value};
ghost use Rattle.game_rules.specs.Mirror.{mirror, mirror_column, mirror_square};
ghost use Rattle.game_rules.specs.declared.Side.{Side};

/// The image has the position's board, and each man of it in the same row of the column as far from the other side. The
/// image of the image is the position.
pub fn an_image_is_seen_from_the_other_side()
    ensures board { (p : Position) → board_of (mirror p) ≡ board_of p }
    ensures men { (p : Position) (s : Square) → s.0 < length p.columns → man_at (mirror p) (mirror_square (length p.columns) s) ≡ man_at p s }
    ensures twice { (p : Position) → mirror (mirror p) ≡ p }
{}

/// The same side is to move at the image, has a line there and has won, the moves are those into the columns as far from
/// the other side, and so each game goes on from it as from the position.
pub fn an_image_is_played_alike()
    ensures turn { (p : Position) → side_to_move (mirror p) ≡ side_to_move p }
    ensures lines { (p : Position) (side : Side) → has_line (mirror p) side ≡ has_line p side }
    ensures end { (p : Position) → end_of (mirror p) ≡ end_of p }
    ensures legal { (p : Position) (column : ℕ) → column < length p.columns → is_legal (mirror p) (mirror_column (length p.columns) column) ≡ is_legal p column }
    ensures moves { (p : Position) (column : ℕ) → column < length p.columns → after_move (mirror p) (mirror_column (length p.columns) column) ≡ mirror (after_move p column) }
    ensures games { (p : Position) (columns : List ℕ) → AllByRecursion (λ column. column < length p.columns) columns
        → played (mirror p) (map (mirror_column (length p.columns)) columns) ≡ option_map mirror (played p columns) }
{}

/// Under perfect play a position and its image have the same value.
pub fn an_image_has_the_same_value()
    ensures { (p : Position) → value (mirror p) ≡ value p }
{}
