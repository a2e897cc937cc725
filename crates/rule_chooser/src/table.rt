//! The groups of a board, each with its squares. They are made anew only where another board comes, so that a search,
//! which stays on one board, makes them once.
ghost use Rattle.std.specs.Prelude.{◌≡◌, ◌≤◌, length};
ghost use Rattle.game_rules.specs.Squares.{has_square, IsSetOf};
ghost use Rattle.game_rules.specs.Groups.{squares_of, groups_of};
ghost use Rattle.game_rules.specs.declared.TheConstants.{MOST_GROUPS};

use arrayvec::ArrayVec;
use board_bits::{Mask, Size};
use game_rules::MOST_GROUPS;
use open_groups::{GroupId, group_mask, groups};
use std::marker::Model;

/// A group of a board, with the set of its squares.
#[derive(Drop)]
pub(crate) struct BoardGroup {
    id: GroupId,
    squares: Mask,
}

impl Model for BoardGroup {
    ghost use Rattle.game_rules.specs.Squares.{has_square, IsSetOf};
    ghost use Rattle.game_rules.specs.Groups.{Group, squares_of};

    ghost Value = { Group };

    ghost view = { λ group. group.id };

    ghost invariant = { λ group. IsSetOf (has_square (squares_of group.id)) group.squares };
}

impl Default for BoardGroup {
    ghost is_default = { λ group. group ≡ group };

    fn default() -> Self {
        BoardGroup::of(GroupId::default())
    }
}

impl BoardGroup {
    fn of(id: GroupId) -> BoardGroup
        ensures { result ≡ id }
    {
        BoardGroup {
            id,
            squares: group_mask(id),
        }
    }

    pub(crate) fn id(&self) -> GroupId
        ensures { result ≡ self.now }
    {
        self.id
    }

    pub(crate) fn squares(&self) -> Mask
        ensures { IsSetOf (has_square (squares_of self.now)) result }
    {
        self.squares
    }
}

/// The groups of a board in group order. A contract sees the board.
#[derive(Drop)]
pub(crate) struct GroupTable {
    size: Size,
    groups: ArrayVec<BoardGroup, MOST_GROUPS>,
}

impl Model for GroupTable {
    ghost use Rattle.std.specs.Prelude.{◌≡◌};
    ghost use Rattle.game_rules.specs.Board.{Board};
    ghost use Rattle.game_rules.specs.Groups.{groups_of};

    ghost Value = { Board };

    ghost view = { λ table. table.size };

    ghost invariant = { λ table. table.groups.items ≡ groups_of table.size };
}

impl GroupTable {
    /// The table of a board.
    pub(crate) fn of(size: Size) -> GroupTable
        ensures { result ≡ size }
    {
        let mut groups = ArrayVec::new();
        list_all(size, &mut groups);
        GroupTable { size, groups }
    }

    /// Makes it the table of a board.
    pub(crate) fn turn_to(&mut self, size: Size)
        ensures { self.new ≡ size }
    {
        if !self.size.same(&size) {
            self.size = size;
            list_all(size, &mut self.groups);
        }
    }

    pub(crate) fn groups(&self) -> &[BoardGroup]
        ensures value { result.now ≡ groups_of self.now }
        ensures few { length result.now ≤ MOST_GROUPS }
    {
        self.groups.as_slice()
    }
}

/// Lists the groups of a board, in place of what was listed. Its local list is cleared at each call, so it isn't made a part
/// of a function that is called often.
#[inline(never)]
fn list_all(size: Size, list: &mut ArrayVec<BoardGroup, MOST_GROUPS>)
    ensures { list.new.items ≡ groups_of size }
{
    list.clear();
    let groups = groups(size);
    for group in groups.as_slice() {
        list.push(BoardGroup::of(*group));
    }
}
