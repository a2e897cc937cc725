//! One group, and all groups of a board. A group has the length of the lines of its board.
ghost use Rattle.std.specs.Prelude.{◌≡◌, ◌+◌, ◌≤◌, ◌++◌, true, Some, None, if◌then◌else◌, length};
ghost use Rattle.game_rules.specs.Board.{is_line, same_length};
ghost use Rattle.game_rules.specs.Squares.{has_square, squares_of_board, widest_with, IsSetOf};
ghost use Rattle.game_rules.specs.Groups.{squares_of, lies_on, group_on, groups_along, groups_of};
ghost use Rattle.arrayvec.specs.ArrayVec.{array_vec_len};
ghost use Rattle.game_rules.specs.declared.TheConstants.{MOST_GROUPS};

use arrayvec::ArrayVec;
use board_bits::{Length, MOST_IN_LINE, Mask, Size, Square};
use game_rules::{MOST_GROUPS, Way};
use std::marker::Model;

/// A group of squares in a line, by its anchor, its direction and its length.
#[derive(Clone, Copy, Debug, PartialEq, Eq)]
pub struct GroupId {
    anchor: Square,
    way: Way,
    len: Length,
}

impl Model for GroupId {
    ghost use Rattle.std.specs.Prelude.{◌≡◌, true};
    ghost use Rattle.game_rules.specs.Board.{is_line};
    ghost use Rattle.game_rules.specs.Squares.{widest_with};
    ghost use Rattle.game_rules.specs.Groups.{Group};

    ghost Value = { Group };

    ghost view = { λ group. record { anchor = group.anchor; way = group.way; len = group.len } };

    ghost invariant = { λ group. is_line (widest_with group.len) group.way group.anchor ≡ true };

    ghost inverse = { λ g. record { anchor = g.anchor; way = g.way; len = g.len } };
}

impl Default for GroupId {
    ghost use Rattle.std.specs.Prelude.{◌≡◌};
    ghost use Rattle.game_rules.specs.declared.Way.TheVariants.{H};
    ghost use Rattle.game_rules.specs.declared.Length.TheVariants.{Four};

    ghost is_default = { λ g. g ≡ record { anchor = (0, 1); way = H; len = Four } };

    /// The level group of four squares with its anchor in the lowest square of the first column, which every board
    /// with lines of four has.
    fn default() -> Self {
        GroupId {
            anchor: Square::default(),
            way: Way::H,
            len: Length::Four,
        }
    }
}

impl GroupId {
    /// The group from this anchor, whose squares are all on the widest board.
    pub(crate) fn from_anchor(anchor: Square, way: Way, len: Length) -> GroupId
        requires { is_line (widest_with len) way anchor ≡ true }
        ensures { result ≡ record { anchor = anchor; way = way; len = len } }
    {
        GroupId { anchor, way, len }
    }

    /// Whether the group has the length of the board's lines, and its squares are all on the board.
    pub fn lies_on(&self, size: Size) -> bool
        ensures { result ≡ lies_on size self.now }
    {
        same_length(self.len, size.length()) && size.has_line(self.anchor, self.way)
    }

    /// The group's squares, from its anchor on: as many as its length says.
    pub fn squares(&self) -> ArrayVec<Square, MOST_IN_LINE>
        ensures value { result.items ≡ squares_of self.now }
        ensures line { is_line (widest_with self.now.len) self.now.way self.now.anchor ≡ true }
    {
        self.anchor.line(self.len, self.way)
    }
}

/// All groups of a board in group order: by direction, level, upright, rising and falling, and within a direction by
/// their anchors in square order.
pub fn groups(size: Size) -> ArrayVec<GroupId, MOST_GROUPS>
    ensures { result.items ≡ groups_of size }
{
    let squares = size.squares();
    let mut groups = ArrayVec::new();
    push_along(size, Way::H, squares.as_slice(), &mut groups);
    push_along(size, Way::V, squares.as_slice(), &mut groups);
    push_along(size, Way::U, squares.as_slice(), &mut groups);
    push_along(size, Way::D, squares.as_slice(), &mut groups);
    groups
}

/// Puts the groups of one direction behind the others, given all squares of the board.
fn push_along(size: Size, way: Way, squares: &[Square], groups: &mut ArrayVec<GroupId, MOST_GROUPS>)
    requires squares { squares.now ≡ squares_of_board size }
    requires room { array_vec_len groups.old + length (groups_along size way) ≤ MOST_GROUPS }
    ensures { groups.new.items ≡ groups.old.items ++ groups_along size way }
{
    for anchor in squares {
        if let Some(group) = group_at(size, *anchor, way) {
            groups.push(group);
        }
    }
}

/// The group of the board's length from this anchor in this direction, and None exactly where its squares aren't all on
/// the board.
pub fn group_at(size: Size, anchor: Square, way: Way) -> Option<GroupId>
    ensures { result ≡ (if is_line size way anchor then Some (group_on size way anchor) else None) }
{
    if size.has_line(anchor, way) {
        Some(GroupId {
            anchor,
            way,
            len: size.length(),
        })
    } else {
        None
    }
}

/// The set of the group's squares.
pub fn group_mask(g: GroupId) -> Mask
    ensures { IsSetOf (has_square (squares_of g)) result }
{
    let squares = g.squares();
    Mask::of(squares.as_slice())
}

/// The group's anchor: its leftmost square, or its lowest where it is upright.
pub fn group_anchor(g: GroupId) -> Square
    ensures value { result ≡ g.anchor }
    ensures line { is_line (widest_with g.len) g.way g.anchor ≡ true }
{
    g.anchor
}

/// The group's direction.
pub fn group_way(g: GroupId) -> Way
    ensures { result ≡ g.way }
{
    g.way
}

/// The group's length.
pub fn group_length(g: GroupId) -> Length
    ensures { result ≡ g.len }
{
    g.len
}

/// Whether the lengths are the same.
pub(crate) fn same_length(a: Length, b: Length) -> bool
    ensures { result ≡ same_length a b }
{
    a == b
}
