//! Sets of zones that leave no square open: whether such a set gives a plan, and the list that it gives then.
ghost use Rattle.std.specs.Prelude.{◌≡◌, ◌↔◌, IsTrue, ◌+◌, ◌<◌, ◌≤◌, true, not, ◌||◌, if◌then◌else◌, length, take, drop, is_some};
ghost use Rattle.std.specs.List.{list_all};
ghost use Rattle.game_rules.specs.Board.{Square as Place};
ghost use Rattle.game_rules.specs.Position.{Position as Men, board_of};
ghost use Rattle.game_rules.specs.Squares.{has_square, is_empty, IsSetOf};
ghost use Rattle.game_rules.specs.Groups.{groups_of};
ghost use Rattle.plan_rules.specs.Listing.{has_instance};
ghost use Rattle.rule_law.specs.KeptFacts.{facts_in};
ghost use Rattle.rule_compat.specs.Written.{written, written_list};
ghost use Rattle.walk_rules.specs.Walk.{is_left, answer_to, with_one, given};
ghost use Rattle.walk_rules.specs.Steps.{is_zone_set};
ghost use Rattle.plan_rules.specs.declared.TheConstants.{MOST_MEMBERS};
ghost use Rattle.rule_chooser.specs.declared.visit.TheConstants.{MOST_ZONES};
ghost use Rattle.rule_chooser.specs.Ground.{IsGround};
ghost use Rattle.rule_chooser.specs.Standing.{first_standing, some_bars, is_answered_by};

use crate::ground::Ground;
use crate::standing::first_answer;
use arrayvec::ArrayVec;
use board_bits::{Mask, Position};
use plan_rules::MOST_MEMBERS;
use rule_compat::{Instance, Zone, facts_kept};
use rule_law::{Kept, Rule};

/// Whether each group that the set leaves has an answer. The set's instances are put into the list, in place of what it had.
pub(crate) fn is_answered(
    p: &Position,
    ground: &Ground,
    set: &[Zone],
    list: &mut ArrayVec<Instance, MOST_MEMBERS>,
) -> bool
    requires ground { IsGround p.now ground.now }
    requires set { is_zone_set p.now (written_list set.now) ≡ true }
    requires few { length set.now ≤ MOST_ZONES }
    ensures answered { result ≡ list_all (λ g. not (is_left p.now (written_list set.now) g) || is_some (answer_to p.now (written_list set.now) g)) (groups_of (board_of p.now)) }
    ensures list { list.new.items ≡ set.now }
{
    p.has_a_board();
    list_instances(set, list);
    let kept = facts_kept(p, list.as_slice());
    for group in ground.white.as_slice() {
        if !has_answer(p, ground, set, &kept, group.empty) {
            return false;
        }
    }
    true
}

/// Puts the instances of the zones into the list, in place of what it had.
fn list_instances(set: &[Zone], list: &mut ArrayVec<Instance, MOST_MEMBERS>)
    requires { length set.now ≤ MOST_ZONES }
    ensures { list.new.items ≡ set.now }
{
    list.clear();
    for zone in set {
        list.push(zone.instance());
    }
}

/// Whether a zone of a set or a standing instance answers a group.
fn has_answer(p: &Position, ground: &Ground, set: &[Zone], kept: &Kept, empty: Mask) -> bool
    requires ground { IsGround p.now ground.now }
    requires set { is_zone_set p.now (written_list set.now) ≡ true }
    requires kept { (u : Place) → has_square kept.now.empty u ≡ is_empty p.now u }
    requires part { (u : Place) → has_square empty u ≡ true → is_empty p.now u ≡ true }
    ensures { result ≡ is_answered_by p.now (facts_in kept.now) (written_list set.now) empty }
{
    is_barred(set, kept, empty) || first_answer(p, ground, kept, empty).is_some()
}

/// Whether one of the zones of a set bars the squares.
fn is_barred(set: &[Zone], kept: &Kept, empty: Mask) -> bool
    requires { (p : Men) × (is_zone_set p (written_list set.now) ≡ true) }
    ensures { result ≡ some_bars (facts_in kept.now) (has_square empty) (written_list set.now) }
{
    for zone in set {
        if zone.bars(kept, empty) {
            return true;
        }
    }
    false
}

/// Puts behind a set's zones the first answer to each group that they leave, none twice.
pub(crate) fn add_answers(
    p: &Position,
    ground: &Ground,
    list: &mut ArrayVec<Instance, MOST_MEMBERS>,
)
    requires ground { IsGround p.now ground.now }
    requires set { is_zone_set p.now (written_list list.old.items) ≡ true }
    requires few { length list.old.items ≤ MOST_ZONES }
    ensures given { written_list list.new.items ≡ given p.now (written_list list.old.items) }
    ensures few { length list.new.items ≤ 288 }
{
    p.has_a_board();
    let kept = facts_kept(p, list.as_slice());
    let zones = list.len();
    for group in ground.white.as_slice() {
        add_answer(p, ground, &kept, group.empty, zones, list);
    }
}

/// Puts the first answer to a group behind the others, where no zone answers the group and the answer isn't among them. The
/// zones stand first in the list.
fn add_answer(
    p: &Position,
    ground: &Ground,
    kept: &Kept,
    empty: Mask,
    zones: usize,
    list: &mut ArrayVec<Instance, MOST_MEMBERS>,
)
    requires ground { IsGround p.now ground.now }
    requires kept { (u : Place) → has_square kept.now.empty u ≡ is_empty p.now u }
    requires part { (u : Place) → has_square empty u ≡ true → is_empty p.now u ≡ true }
    requires zones { zones ≤ length list.old.items }
    requires room { length list.old.items < MOST_MEMBERS }
    ensures zones { take zones list.new.items ≡ take zones list.old.items }
    ensures answers { written_list (drop zones list.new.items) ≡ (
        if some_bars (facts_in kept.now) (has_square empty) (written_list (take zones list.old.items)) then written_list (drop zones list.old.items)
        else with_one (written_list (drop zones list.old.items)) (first_standing p.now (facts_in kept.now) (has_square empty))
        ) }
    ensures least { length list.old.items ≤ length list.new.items }
    ensures most { length list.new.items ≤ length list.old.items + 1 }
{
    if has_bar(&list.as_slice()[..zones], kept, empty) {
        return;
    }
    if let Some(answer) = first_answer(p, ground, kept, empty) {
        if !has_instance(&list.as_slice()[zones..], &answer) {
            list.push(answer);
        }
    }
}

/// Whether one of the instances bars the squares.
fn has_bar(list: &[Instance], kept: &Kept, empty: Mask) -> bool
    ensures { result ≡ some_bars (facts_in kept.now) (has_square empty) (written_list list.now) }
{
    for instance in list {
        if instance.bars(kept, empty) {
            return true;
        }
    }
    false
}

/// Whether the list has the instance.
fn has_instance(list: &[Instance], instance: &Instance) -> bool
    ensures { result ≡ has_instance (written_list list.now) (written instance.now) }
{
    for member in list {
        if is_same(instance, member) {
            return true;
        }
    }
    false
}

/// Whether the instances are the same.
fn is_same(a: &Instance, b: &Instance) -> bool
    ensures { IsTrue result ↔ (a.now ≡ b.now) }
{
    a == b
}
