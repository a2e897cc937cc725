//! What the three rules ask of their line. Each question is one about sets of squares, so no call loops over a board.
ghost use Rattle.std.specs.Prelude.{◌≡◌, ◌+◌, ◌&&◌, true, not, nat_le, nat_lt};
ghost use Rattle.std.specs.List.{list_any};
ghost use Rattle.game_rules.specs.Position.{board_of, has_man};
ghost use Rattle.game_rules.specs.declared.Side.TheVariants.{White, Black};
ghost use Rattle.game_rules.specs.Squares.{has_square, is_empty, IsSetOf};
ghost use Rattle.game_rules.specs.Groups.{squares_of, lies_on, is_free_for};
ghost use Rattle.plan_rules.specs.Squares.{above, each_of};
ghost use Rattle.plan_rules.specs.Rules.{is_open_line, is_low_line, some_above};

use open_groups::{GroupId, group_anchor, group_mask};
use rule_law::{Mask, Position};

/// No board has more rows.
const MOST_ROWS: u8 = 10;

/// Whether the group is a line of the position's board, without a man of White's and with an empty square.
pub(crate) fn is_open_line(p: &Position, g: GroupId) -> bool
    ensures { result ≡ is_open_line p.now g }
{
    g.lies_on(p.size()) && is_open(p, group_mask(g))
}

/// Whether none of the squares has a man of White's, and some are empty.
fn is_open(p: &Position, squares: Mask) -> bool
    ensures { result ≡ (not (list_any (has_man p.now White) squares) && list_any (is_empty p.now) squares) }
{
    !squares.meets(p.white()) && squares.meets(p.empties())
}

/// Whether it is such a line, and each empty square of it lies below the top row.
pub(crate) fn is_low_line(p: &Position, g: GroupId) -> bool
    ensures { result ≡ is_low_line p.now g }
{
    is_open_line(p, g) && is_below_the_top(p, g, group_mask(g))
}

/// Whether a group that Black can still fill is an open line: whether some square of it is empty.
pub(crate) fn is_open_where_free(p: &Position, g: GroupId, squares: Mask) -> bool
    requires free { (lies_on (board_of p.now) g && is_free_for Black p.now g) ≡ true }
    requires squares { IsSetOf (has_square (squares_of g)) squares }
    ensures { result ≡ is_open_line p.now g }
{
    squares.meets(p.empties())
}

/// Whether it is one whose empty squares all lie below the top row. Its squares are lent, so that a list of lines makes
/// them once for each line.
pub(crate) fn is_low_where_free(p: &Position, g: GroupId, squares: Mask) -> bool
    requires free { (lies_on (board_of p.now) g && is_free_for Black p.now g) ≡ true }
    requires squares { IsSetOf (has_square (squares_of g)) squares }
    ensures { result ≡ is_low_line p.now g }
{
    is_open_where_free(p, g, squares) && is_below_the_top(p, g, squares)
}

/// Whether each empty square of the group lies below the top row: there the square above it is empty too.
fn is_below_the_top(p: &Position, g: GroupId, squares: Mask) -> bool
    requires { IsSetOf (has_square (squares_of g)) squares }
    ensures { result ≡ each_of (is_empty p.now) (λ u. nat_lt u.1 p.now.rows) (squares_of g) }
{
    let empties = p.empties();
    squares.intersection(empties).within(empties.lowered())
}

/// Whether those of the group's squares that are in the first set are in the second.
pub(crate) fn is_chosen_within(g: GroupId, chosen: Mask, set: Mask) -> bool
    ensures { result ≡ each_of (has_square chosen) (has_square set) (squares_of g) }
{
    group_mask(g).intersection(chosen).within(set)
}

/// Whether the set has the square directly above each of the group's squares that are chosen.
pub(crate) fn has_each_above(g: GroupId, chosen: Mask, set: Mask) -> bool
    ensures { result ≡ each_of (has_square chosen) (λ u. has_square set (above u)) (squares_of g) }
{
    // its contract says that the squares are on the widest board
    let _line = group_anchor(g);
    is_chosen_within(g, chosen, set.lowered())
}

/// Whether the set has some square above each of the group's squares that are chosen, in their columns.
pub(crate) fn has_some_above_each(g: GroupId, chosen: Mask, set: Mask) -> bool
    ensures { result ≡ each_of (has_square chosen) (some_above (has_square set)) (squares_of g) }
{
    // its contract says that the squares are on the widest board
    let _line = group_anchor(g);
    is_chosen_within(g, chosen, squares_below(set))
}

/// The squares above which, in their column, some square of the set lies.
pub fn squares_below(set: Mask) -> Mask
    ensures { IsSetOf (λ u. nat_le 1 u.1 && some_above (has_square set) u) result }
{
    let mut lowered = set;
    let mut below = Mask::empty();
    for _rows in 0..MOST_ROWS {
        lowered = lowered.lowered();
        below = below.union(lowered);
    }
    below
}
