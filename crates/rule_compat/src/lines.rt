//! The lines of the board as the members of a list answer them, each by a member that bars its empty squares.
ghost use Rattle.std.specs.Prelude.{◌≡◌, ◌≤◌, length};
ghost use Rattle.std.specs.List.{find};
ghost use Rattle.game_rules.specs.Position.{board_of};
ghost use Rattle.game_rules.specs.Groups.{groups_of};
ghost use Rattle.plan_rules.specs.Rules.{facts_of};
ghost use Rattle.plan_rules.specs.Refusal.{first_barring, is_unanswered};
ghost use Rattle.group_rules.specs.KeptFacts.{facts_in};
ghost use Rattle.rule_compat.specs.Written.{written_list};
ghost use Rattle.plan_rules.specs.declared.TheConstants.{MOST_MEMBERS};

use crate::Instance;
use group_rules::{GroupId, Kept, Position, Rule, Side, free_for, group_mask};

/// The first group, in group order, without a man of Black's that no member bars.
pub(crate) fn first_unanswered(p: &Position, list: &[Instance], kept: &Kept) -> Option<GroupId>
    requires few { length list.now ≤ MOST_MEMBERS }
    requires kept { facts_in kept.now ≡ facts_of p.now (written_list list.now) }
    ensures { result ≡ find (is_unanswered p.now (written_list list.now)) (groups_of (board_of p.now)) }
{
    let groups = free_for(p, Side::White).groups();
    for g in groups.as_slice() {
        if first_barring(p, list, kept, *g).is_none() {
            return Some(*g);
        }
    }
    None
}

/// The first member, counted from 1, that bars the empty squares of a line.
pub(crate) fn first_barring(p: &Position, list: &[Instance], kept: &Kept, g: GroupId) -> Option<u32>
    requires few { length list.now ≤ MOST_MEMBERS }
    requires kept { facts_in kept.now ≡ facts_of p.now (written_list list.now) }
    ensures { result ≡ first_barring p.now (written_list list.now) g }
{
    let squares = p.empties().intersection(group_mask(g));
    for (index, instance) in list.iter().enumerate() {
        if instance.bars(kept, squares) {
            return Some(index as u32 + 1);
        }
    }
    None
}
