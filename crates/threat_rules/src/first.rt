//! The first odd threat of a position: group by group, and for each the ways to pair the columns with an odd number of
//! men. At most ten columns are paired, so a group costs at most 105 checks.
ghost use Rattle.std.specs.Prelude.{◌≡◌, ◌↔◌, ℕ, ◌+◌, ◌*◌, ◌<◌, ◌≤◌, ◌++◌, [], ◌∷◌, true, false, List, map, length, None};
ghost use Rattle.std.specs.List.{find, remove};
ghost use Rattle.std.specs.Option.{option_map};
ghost use Rattle.game_rules.specs.Position.{has_room};
ghost use Rattle.game_rules.specs.Groups.{Group};
ghost use Rattle.odd_rules.specs.Threat.{Pair, is_threat};
ghost use Rattle.odd_rules.specs.Refusal.{odd_columns, tops, pairings, threat_by, first_threat};
ghost use Rattle.threat_rules.specs.Threatened.{threat_with, threat_found};
ghost use Rattle.threat_rules.specs.Ascending.{ascends};

use crate::Threat;
use crate::pairs::is_odd_column;
use crate::target::target;
use arrayvec::ArrayVec;
use base_rules::Baseinverse;
use board_bits::{Column, MOST_COLS, Position, Square};
use open_groups::{GroupId, groups};

/// No board has columns for more pairs of different columns.
const MOST_APART: usize = 5;

impl Threat {
    /// The first odd threat of the position: of the first group, in group order, that is one with some list of pairs,
    /// and for it with the first such list. The lists are made by pairing the first column with an odd number of men,
    /// the target's aside, with each later one, from the left, and then in the same way those that are left. None
    /// exactly where no group is a threat with any list of pairs.
    pub fn first(p: &Position) -> Option<Threat>
        ensures first { result ≡ option_map (threat_found p.now) (first_threat p.now) }
        ensures none { (result ≡ None) ↔ ((g : Group) (pairs : List Pair) → is_threat p.now g pairs ≡ false) }
    {
        let groups = groups(p.size());
        for group in groups.as_slice() {
            let threat = threat_by(p, *group);
            if threat.is_some() {
                return threat;
            }
        }
        None
    }
}

/// The threat that the group is with the first pairing with which it is one.
fn threat_by(p: &Position, group: GroupId) -> Option<Threat>
    ensures { result ≡ option_map (threat_with p.now group) (threat_by p.now group) }
{
    p.has_a_board();
    let t = target(p, group)?;
    let columns = odd_columns(p, t);
    first_pairing(p, group, columns.as_slice(), &[])
}

/// The columns with an odd number of men, the target's aside, from the left.
fn odd_columns(p: &Position, t: Square) -> ArrayVec<Column, MOST_COLS>
    ensures { result.items ≡ odd_columns p.now t }
{
    let size = p.size();
    let mut columns = ArrayVec::new();
    for index in 0..size.cols() {
        let column = size.nth_column(index);
        if is_odd_column(p, t, column) {
            columns.push(column);
        }
    }
    columns
}

/// The threat that the group is with the given pairs and the first pairing of the columns with which it is one.
fn first_pairing(
    p: &Position,
    group: GroupId,
    columns: &[Column],
    pairs: &[Baseinverse],
) -> Option<Threat>
    requires room { 2 * length pairs.now + length columns.now ≤ 10 }
    requires order { ascends p.now columns.now ≡ true }
    ensures { (n : ℕ) → length columns.now ≤ n
        → result ≡ option_map (threat_with p.now group) (find (is_threat p.now group) (map (λ rest. pairs.now ++ rest) (pairings n p.now columns.now))) }
{
    let [first, rest @ ..] = columns else {
        return Threat::check(p, group, pairs).ok();
    };
    for index in 0..rest.len() {
        let more = with_pair(p, pairs, *first, rest[index]);
        let others = without(rest, index);
        let threat = first_pairing(p, group, others.as_slice(), more.as_slice());
        if threat.is_some() {
            return threat;
        }
    }
    None
}

/// The pairs with one more: that of the lowest empty squares of two columns.
fn with_pair(
    p: &Position,
    pairs: &[Baseinverse],
    c: Column,
    d: Column,
) -> ArrayVec<Baseinverse, MOST_APART>
    requires few { length pairs.now < 5 }
    requires order { c < d }
    requires left { has_room p.now c ≡ true }
    requires right { has_room p.now d ≡ true }
    ensures { result.items ≡ pairs.now ++ tops p.now c d ∷ [] }
{
    let s = p.playable(c).unwrap();
    let t = p.playable(d).unwrap();
    let mut more = ArrayVec::new();
    more.try_extend_from_slice(pairs).unwrap();
    more.push(Baseinverse::new(p.size(), s, t).unwrap());
    more
}

/// The columns without the one at this place.
fn without(columns: &[Column], index: usize) -> ArrayVec<Column, MOST_COLS>
    requires few { length columns.now ≤ 10 }
    requires within { index < length columns.now }
    ensures { result.items ≡ remove columns.now index }
{
    let mut others = ArrayVec::new();
    others.try_extend_from_slice(columns).unwrap();
    others.remove(index);
    others
}
