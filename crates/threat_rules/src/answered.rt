//! The lines of the board as an odd threat answers them: each has a man of White's, a square that Black never gets, or
//! both squares of a pair.
ghost use Rattle.std.specs.Prelude.{◌≡◌, not, ◌&&◌, ◌||◌, true};
ghost use Rattle.std.specs.List.{list_any, find};
ghost use Rattle.game_rules.specs.Position.{board_of};
ghost use Rattle.game_rules.specs.Squares.{has_square, IsSetOf};
ghost use Rattle.game_rules.specs.Groups.{squares_of, groups_of};
ghost use Rattle.plan_rules.specs.Squares.{is_odd};
ghost use Rattle.odd_rules.specs.Threat.{is_of_pair, is_safe, holds_pair, is_answered};

use base_rules::Baseinverse;
use board_bits::{Mask, Position, Side, Square};
use open_groups::{GroupId, free_for, group_mask};

/// The first group, in group order, without a man of White's that holds neither a safe square nor a whole pair.
pub(crate) fn first_unanswered(p: &Position, t: Square, pairs: &[Baseinverse]) -> Option<GroupId>
    requires { is_odd t.1 ≡ true }
    ensures { result ≡ find (λ g. not (is_answered p.now t pairs.now g)) (groups_of (board_of p.now)) }
{
    let safe = safe_squares(p, t, pairs);
    let groups = free_for(p, Side::Black).groups();
    for g in groups.as_slice() {
        if !is_covered(*g, safe, pairs) {
            return Some(*g);
        }
    }
    None
}

/// Whether the group has some square of the set, or both squares of some pair.
fn is_covered(g: GroupId, safe: Mask, pairs: &[Baseinverse]) -> bool
    ensures { result ≡ (list_any (has_square safe) (squares_of g) || list_any (holds_pair g) pairs.now) }
{
    let squares = group_mask(g);
    squares.meets(safe) || holds_some_pair(squares, pairs)
}

/// The squares that Black never gets: in the target's column the empty ones of odd rows up to the target and all above
/// it, and in the other columns the empty ones of even rows that are in no pair.
fn safe_squares(p: &Position, t: Square, pairs: &[Baseinverse]) -> Mask
    requires { is_odd t.1 ≡ true }
    ensures { IsSetOf (is_safe p.now t pairs.now) result }
{
    p.has_a_board();
    let empties = p.empties();
    let odd_rows = Mask::odd_rows();
    let column = Mask::column(t.column());
    let in_column = empties
        .intersection(column)
        .intersection(odd_rows.union(Mask::upwards(t)));
    let elsewhere = empties
        .without(column)
        .without(odd_rows.union(squares_of_pairs(pairs)));
    in_column.union(elsewhere)
}

/// The squares of all the pairs.
fn squares_of_pairs(pairs: &[Baseinverse]) -> Mask
    ensures { IsSetOf (λ u. list_any (is_of_pair u) pairs.now) result }
{
    let mut squares = Mask::empty();
    for pair in pairs {
        squares = squares.with(pair.t()).with(pair.s());
    }
    squares
}

/// Whether both squares of some pair are of the set.
fn holds_some_pair(squares: Mask, pairs: &[Baseinverse]) -> bool
    ensures { result ≡ list_any (λ x. has_square squares x.0 && has_square squares x.1) pairs.now }
{
    for pair in pairs {
        if squares.has(pair.s()) && squares.has(pair.t()) {
            return true;
        }
    }
    false
}
