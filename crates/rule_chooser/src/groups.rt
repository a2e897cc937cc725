//! The groups that a side can still fill at a position, each with the set of its empty squares.
ghost use Rattle.std.specs.Prelude.{◌≡◌, ◌<◌, ◌++◌, length, map};
ghost use Rattle.game_rules.specs.Position.{board_of};
ghost use Rattle.game_rules.specs.declared.Side.TheVariants as sides;
ghost use Rattle.game_rules.specs.declared.TheConstants.{MOST_GROUPS};
ghost use Rattle.rule_chooser.specs.OpenGroups.{open_group_at, groups_for, open_part};

use crate::table::{BoardGroup, GroupTable};
use arrayvec::ArrayVec;
use board_bits::{Mask, Position};
use game_rules::MOST_GROUPS;
use open_groups::GroupId;

/// A group that a side can still fill, and its squares that are empty.
#[derive(Clone, Copy)]
pub(crate) struct OpenGroup {
    pub(crate) id: GroupId,
    pub(crate) empty: Mask,
}

impl Default for OpenGroup {
    ghost is_default = { λ group. group ≡ group };

    fn default() -> Self {
        OpenGroup {
            id: GroupId::default(),
            empty: Mask::empty(),
        }
    }
}

/// Lists the groups that White can still fill and those that Black can, each without a man of the other side, in group
/// order, in place of what was listed.
pub(crate) fn list_groups(
    p: &Position,
    table: &GroupTable,
    white: &mut ArrayVec<OpenGroup, MOST_GROUPS>,
    black: &mut ArrayVec<OpenGroup, MOST_GROUPS>,
)
    requires { table.now ≡ board_of p.now }
    ensures white { white.new.items ≡ map (open_group_at p.now) (groups_for sides.White p.now) }
    ensures black { black.new.items ≡ map (open_group_at p.now) (groups_for sides.Black p.now) }
{
    white.clear();
    black.clear();
    let empties = p.empties();
    let white_men = p.white();
    let black_men = p.black();
    for group in table.groups() {
        add_open(group, black_men, empties, white);
        add_open(group, white_men, empties, black);
    }
}

/// Puts a group, with its empty squares, behind the others, where it has none of the other side's men.
fn add_open(
    group: &BoardGroup,
    men: Mask,
    empties: Mask,
    groups: &mut ArrayVec<OpenGroup, MOST_GROUPS>,
)
    requires { length groups.old.items < MOST_GROUPS }
    ensures { groups.new.items ≡ groups.old.items ++ open_part men empties group.now }
{
    let squares = group.squares();
    if !squares.meets(men) {
        groups.push(OpenGroup {
            id: group.id(),
            empty: empties.intersection(squares),
        });
    }
}
