//! Sets of groups, and the groups that a side can still fill. A set is of groups of one board, and is kept as the
//! anchors of its groups in each direction; a contract sees the board, and the list of the groups in group order.
ghost use Rattle.std.specs.Prelude.{◌≡◌, ◌+◌, ◌≤◌, ◌++◌, ◌&&◌, ◌||◌, true, false, map, length};
ghost use Rattle.std.specs.Simd.Lanes.{mask_l};
ghost use Rattle.game_rules.specs.Board.{same_length};
ghost use Rattle.game_rules.specs.Position.{board_of};
ghost use Rattle.open_groups.specs.GroupBits.{group_bits, those_along};
ghost use Rattle.arrayvec.specs.ArrayVec.{array_vec_len};
ghost use Rattle.game_rules.specs.Groups.{lies_on, rank, same_group, has_group, is_free_for, IsGroupSetOf};
ghost use Rattle.game_rules.specs.declared.TheConstants.{MOST_GROUPS};

use crate::group::same_length;
use crate::{GroupId, group_anchor, group_length, group_way, groups};
use arrayvec::ArrayVec;
use board_bits::{Length, Mask, Position, Side, Size};
use game_rules::{MOST_GROUPS, Way};
use std::marker::Model;

/// How many bits a word has.
const WORD: usize = 128;

/// How many directions there are.
const WAYS: usize = 4;

/// A set of groups of one board.
#[derive(Clone, Copy)]
pub struct GroupSet {
    size: Size,
    anchors: [Mask; WAYS],
}

impl Model for GroupSet {
    ghost use Rattle.game_rules.specs.Groups.{GroupsOn};

    ghost Value = { GroupsOn };

    ghost use Rattle.open_groups.specs.AnchorFields.{set_anchored, anchors_of, IsSound, groups_determine_the_fields};

    ghost view = { λ set. set_anchored set.size set.anchors };

    ghost invariant = { IsSound };

    ghost inverse = { λ set. record { size = set.board; anchors = anchors_of set } };

    ghost inverse_ok = { groups_determine_the_fields };
}

impl GroupSet {
    /// The set without groups.
    pub fn empty(size: Size) -> GroupSet
        ensures { IsGroupSetOf size (λ _. false) result }
    {
        size.is_a_board();
        GroupSet {
            size,
            anchors: [Mask::empty(); WAYS],
        }
    }

    /// Whether the set has the group. It has none of another length than its board's, and none off the board.
    pub fn has(&self, g: GroupId) -> bool
        ensures { result ≡ has_group self.now.groups g }
    {
        let anchors = self.anchors[rank_of(group_way(g))];
        same_length(group_length(g), self.size.length()) && anchors.has(group_anchor(g))
    }

    /// The set's groups in group order. The cost is that of those groups alone.
    pub fn groups(&self) -> ArrayVec<GroupId, MOST_GROUPS>
        ensures { result.items ≡ self.now.groups }
    {
        // so the proof sees the anchors
        let _anchors = &self.anchors;
        let mut groups = ArrayVec::new();
        self.push_along(Way::H, &mut groups);
        self.push_along(Way::V, &mut groups);
        self.push_along(Way::U, &mut groups);
        self.push_along(Way::D, &mut groups);
        groups
    }

    /// Puts the set's groups of one direction behind the others.
    fn push_along(&self, way: Way, groups: &mut ArrayVec<GroupId, MOST_GROUPS>)
        requires { array_vec_len groups.old + length (those_along self.now way) ≤ MOST_GROUPS }
        ensures { groups.new.items ≡ groups.old.items ++ those_along self.now way }
    {
        let anchors = self.anchors[rank_of(way)].squares();
        for anchor in anchors.as_slice() {
            groups.push(GroupId::from_anchor(*anchor, way, self.size.length()));
        }
    }

    /// The set with one more group of its board.
    pub fn with(&self, g: GroupId) -> GroupSet
        requires { lies_on self.now.board g ≡ true }
        ensures { IsGroupSetOf self.now.board (λ h. same_group h g || has_group self.now.groups h) result }
    {
        let place = rank_of(group_way(g));
        let mut anchors = self.anchors;
        let along = anchors[place];
        anchors[place] = along.with(group_anchor(g));
        GroupSet {
            size: self.size,
            anchors,
        }
    }
}

impl GroupSet {
    /// The set as numbers: the groups of its board are numbered from 0 in group order, and the group with number n is
    /// bit n of the first word, or bit n - 128 of the second.
    pub fn bits(&self) -> (u128, u128)
        ensures { result ≡ group_bits self.now }
    {
        let groups = groups(self.size);
        let groups = groups.as_slice();
        let first = groups.len().min(WORD);
        (self.word(&groups[..first]), self.word(&groups[first..]))
    }

    /// Which of these groups the set has, the first of them as the lowest bit.
    fn word(&self, groups: &[GroupId]) -> u128
        requires { length groups.now ≤ 128 }
        ensures { result ≡ mask_l (map (has_group self.now.groups) groups.now) }
    {
        let mut word = 0;
        let mut left = groups.len();
        while left > 0 {
            left -= 1;
            word *= 2;
            if self.has(groups[left]) {
                word += 1;
            }
        }
        word
    }
}

/// Where the anchors of a direction are kept.
fn rank_of(way: Way) -> usize
    ensures { result ≡ rank way }
{
    match way {
        Way::H => 0,
        Way::V => 1,
        Way::U => 2,
        Way::D => 3,
    }
}

/// The groups of the board without a man of the other side.
pub fn free_for(p: &Position, side: Side) -> GroupSet
    ensures { IsGroupSetOf (board_of p.now) (λ g. lies_on (board_of p.now) g && is_free_for side p.now g) result }
{
    let clear = p.empties().union(p.men(side));
    let size = p.size();
    let len = size.length();
    GroupSet {
        size,
        anchors: [
            clear.line_starts(Way::H, len),
            clear.line_starts(Way::V, len),
            clear.line_starts(Way::U, len),
            clear.line_starts(Way::D, len),
        ],
    }
}
