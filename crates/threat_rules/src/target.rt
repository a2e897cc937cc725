//! The target of a group: the one square that White's line lacks.
ghost use Rattle.std.specs.Prelude.{◌≡◌, ◌||◌};
ghost use Rattle.std.specs.List.{list_all};
ghost use Rattle.game_rules.specs.Position.{has_man};
ghost use Rattle.game_rules.specs.Squares.{same_square};
ghost use Rattle.game_rules.specs.Groups.{squares_of};
ghost use Rattle.game_rules.specs.declared.Side.TheVariants as sides;
ghost use Rattle.odd_rules.specs.Threat.{is_target, target};

use board_bits::{Position, Square};
use open_groups::{GroupId, group_mask};

/// The group's target: an empty square on an odd row above an odd number of men, with White's men on all other squares
/// of the group. None exactly where the group has no such square, or isn't one of the board.
pub(crate) fn target(p: &Position, group: GroupId) -> Option<Square>
    ensures { result ≡ target p.now group }
{
    if !group.lies_on(p.size()) {
        return None;
    }
    let squares = group.squares();
    for square in squares.as_slice() {
        if is_target(p, group, *square) {
            return Some(*square);
        }
    }
    None
}

/// Whether the square is the group's target, where it is one of the group.
fn is_target(p: &Position, group: GroupId, t: Square) -> bool
    ensures { result ≡ is_target p.now group t }
{
    p.is_empty(t) && t.row() % 2 == 1 && p.height(t.column()) % 2 == 1 && has_all_but(p, group, t)
}

/// Whether White has every square of the group, this one aside.
fn has_all_but(p: &Position, group: GroupId, t: Square) -> bool
    ensures { result ≡ list_all (λ u. same_square u t || has_man p.now sides.White u) (squares_of group) }
{
    group_mask(group).within(p.white().with(t))
}
