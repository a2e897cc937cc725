//! The walk through the sets of zones, depth first: one recursion for each zone of a set.
ghost use Rattle.std.specs.Prelude.{◌≡◌, ◌≤◌, true, ◌&&◌, List, ◌++◌, length};
ghost use Rattle.std.specs.List.{list_all};
ghost use Rattle.game_rules.specs.Squares.{has_square};
ghost use Rattle.plan_rules.specs.Rules.{RuleInstance, zone_of, together};
ghost use Rattle.rule_compat.specs.Written.{written, written_list};
ghost use Rattle.walk_rules.specs.Walk.{fitting_zones, is_plan_position, walk_from, choice_among, choice_of};
ghost use Rattle.walk_rules.specs.Steps.{is_zone_set, after};
ghost use Rattle.rule_chooser.specs.Ground.{IsGround};
ghost use Rattle.rule_chooser.specs.Walked.{LeavesOpen, OpensAt, goes_on, chosen_by};
ghost use Rattle.rule_chooser.specs.declared.visit.TheConstants.{MOST_ZONES};
ghost use Rattle.rule_chooser.specs.declared.visit.WalkOutcome.TheVariants as outcomes;

use crate::full::is_answered;
use crate::ground::Ground;
use arrayvec::ArrayVec;
use board_bits::{Mask, Position, Side, Square};
use plan_rules::MOST_MEMBERS;
use rule_compat::{Instance, Zone};

/// The most zones of a set.
pub(crate) const MOST_ZONES: usize = 50;

/// What a walk has found.
#[derive(Clone, Copy)]
pub(crate) enum WalkOutcome {
    /// A set that gives a plan.
    Plan,
    /// That no set gives one.
    NoPlan,
    /// Nothing among as many sets as were to be visited, and there are more.
    Spent,
}

/// Walks through the sets of the position, as many as are to be visited at most, with all that it works with lent: what is
/// listed of the position is listed anew, and where a set gives a plan the list has its zones.
pub(crate) fn walk(
    p: &Position,
    reach: u32,
    ground: &mut Ground,
    set: &mut ArrayVec<Zone, MOST_ZONES>,
    list: &mut ArrayVec<Instance, MOST_MEMBERS>,
) -> WalkOutcome
    ensures found { choice_of p.now reach ≡ chosen_by p.now (written_list list.new.items) result }
    ensures ground { result ≡ outcomes.Plan → IsGround p.now ground.new }
    ensures set { result ≡ outcomes.Plan → is_zone_set p.now (written_list list.new.items) ≡ true }
    ensures few { result ≡ outcomes.Plan → length list.new.items ≤ MOST_ZONES }
{
    if !is_plan_position(p) {
        return WalkOutcome::NoPlan;
    }
    let mut left = reach;
    if left == 0 {
        return WalkOutcome::Spent;
    }
    ground.list(p);
    set.clear();
    visit(p, ground, p.empties(), &mut left, set, list)
}

/// Whether White is to move and the game goes on.
fn is_plan_position(p: &Position) -> bool
    ensures { result ≡ is_plan_position p.now }
{
    match p.to_move() {
        Side::White => p.ended().is_none(),
        Side::Black => false,
    }
}

/// Visits a set, given the squares that it leaves open, and then each set that comes of it, up to the first that gives a
/// plan: then the list has its zones. Each set visited takes 1 from what is left; where nothing is left, the sets are spent.
#[cycle(sets)]
pub(crate) fn visit(
    p: &Position,
    ground: &Ground,
    uncovered: Mask,
    left: &mut u32,
    set: &mut ArrayVec<Zone, MOST_ZONES>,
    list: &mut ArrayVec<Instance, MOST_MEMBERS>,
) -> WalkOutcome
    requires ground { IsGround p.now ground.now }
    requires set { LeavesOpen p.now (written_list set.old.items) uncovered }
    ensures found { (rest : List (List RuleInstance)) → choice_among p.now left.old (walk_from p.now (written_list set.old.items) ++ rest) ≡ goes_on p.now left.new rest (written_list list.new.items) result }
    ensures set { result ≡ outcomes.NoPlan → set.new.items ≡ set.old.items }
    ensures plan { result ≡ outcomes.Plan → is_zone_set p.now (written_list list.new.items) ≡ true }
    ensures few { result ≡ outcomes.Plan → length list.new.items ≤ MOST_ZONES }
{
    p.has_a_board();
    let Some(less) = left.checked_sub(1) else {
        return WalkOutcome::Spent;
    };
    *left = less;
    let Some(first) = uncovered.first() else {
        return if is_answered(p, ground, set.as_slice(), list) {
            WalkOutcome::Plan
        } else {
            WalkOutcome::NoPlan
        };
    };
    visit_next(p, ground, uncovered, first, left, set, list)
}

/// Visits each set that goes on with a zone that may follow, in their order, and what comes of each.
#[cycle(sets)]
fn visit_next(
    p: &Position,
    ground: &Ground,
    uncovered: Mask,
    first: Square,
    left: &mut u32,
    set: &mut ArrayVec<Zone, MOST_ZONES>,
    list: &mut ArrayVec<Instance, MOST_MEMBERS>,
) -> WalkOutcome
    requires ground { IsGround p.now ground.now }
    requires set { OpensAt p.now (written_list set.old.items) uncovered first }
    ensures found { (rest : List (List RuleInstance)) → choice_among p.now left.old (after p.now (written_list set.old.items) (fitting_zones p.now) ++ rest) ≡ goes_on p.now left.new rest (written_list list.new.items) result }
    ensures set { result ≡ outcomes.NoPlan → set.new.items ≡ set.old.items }
    ensures plan { result ≡ outcomes.Plan → is_zone_set p.now (written_list list.new.items) ≡ true }
    ensures few { result ≡ outcomes.Plan → length list.new.items ≤ MOST_ZONES }
{
    p.has_a_board();
    let zones = ground.zones.list.as_slice();
    let mut index = ground.zones.first_with(first);
    'zones: while index < zones.len() {
        let zone = &zones[index];
        if may_follow(zone, first, set.as_slice()) {
            set.push(*zone);
            let still = uncovered.without(zone.squares());
            match visit(p, ground, still, left, set, list) {
                WalkOutcome::NoPlan => {
                    set.pop();
                }
                found => return found,
            }
        }
        index = ground.zones.next(index);
    }
    WalkOutcome::NoPlan // each was tried
}

/// Whether a zone has the first square that a set leaves open, and may stand with each of the set.
fn may_follow(zone: &Zone, first: Square, set: &[Zone]) -> bool
    ensures { result ≡ (has_square (zone_of (written zone.now)) first && list_all (λ v. together v (written zone.now)) (written_list set.now)) }
{
    zone.squares().has(first) && zone.may_join(set)
}
