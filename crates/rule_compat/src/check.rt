//! The check of a list of instances: whether it is a plan at a position, and why not. What the members alone are refused
//! for comes first, and with it each zone is computed; then what they leave open, over the facts that they keep.
ghost use Rattle.std.specs.Prelude.{◌≡◌, ◌≤◌, not, ◌&&◌, [], length, IfOk};
ghost use Rattle.std.specs.List.{list_any, find, position_from};
ghost use Rattle.game_rules.specs.Position.{board_of};
ghost use Rattle.game_rules.specs.Squares.{has_square, is_empty, squares_of_board, IsSetOf};
ghost use Rattle.plan_rules.specs.Rules.{zone_of, facts_of, is_supported};
ghost use Rattle.plan_rules.specs.Zones.{owns_zone, zones_from};
ghost use Rattle.plan_rules.specs.Refusal.{members_refusal, cover_refusal, plan_refusal, StandTogether};
ghost use Rattle.group_rules.specs.KeptFacts.{facts_in};
ghost use Rattle.rule_compat.specs.Written.{written, written_list};
ghost use Rattle.rule_compat.specs.Faults.{position_refusal, refusal_of};
ghost use Rattle.plan_rules.specs.declared.TheConstants.{MOST_MEMBERS};

use crate::facts::facts_kept;
use crate::lines::first_unanswered;
use crate::members::{MOST_ZONES, first_misfit, gather};
use crate::placed::PlacedZone;
use crate::{Instance, Plan, PlanFault};
use arrayvec::ArrayVec;
use group_rules::{Kept, Mask, Position, Rule, Side, Square};

impl Plan {
    /// The plan of the list at the position, where it is one. Otherwise it is refused for the first of seven reasons that
    /// holds: Black is to move; the game has ended; a member doesn't fit, and the first such is told; two members may not
    /// stand together, and those with the least first one are told, and of these the ones with the least second one; an
    /// empty square is in no zone, and the first in square order is told; a member is without support, and the first is
    /// told; a group without a Black man is barred by no member, and the first in group order is told. Members are
    /// counted from 1. Neither a plan nor a refusal takes memory.
    pub fn check(p: &Position, list: &[Instance]) -> Result<Plan, PlanFault>
        requires { length list.now ≤ MOST_MEMBERS }
        ensures fault { refusal_of result ≡ plan_refusal p.now (written_list list.now) }
        ensures plan { IfOk result (λ plan. plan ≡ record { at = p.now; list = list.now }) }
    {
        position_accepted(p)?;
        let mut zones = ArrayVec::new();
        members_accepted(p, list, &mut zones)?;
        let kept = cover_accepted(p, list, zones.as_slice())?;
        Ok(Plan::of(p, list, zones, kept))
    }

    /// Whether the list is a plan at the position, and why not, as `check` tells it: no plan is made, since it takes some
    /// thousand bytes.
    pub fn test(p: &Position, list: &[Instance]) -> Result<(), PlanFault>
        requires { length list.now ≤ MOST_MEMBERS }
        ensures { refusal_of result ≡ plan_refusal p.now (written_list list.now) }
    {
        position_accepted(p)?;
        let mut zones = ArrayVec::new();
        members_accepted(p, list, &mut zones)?;
        cover_accepted(p, list, zones.as_slice())?;
        Ok(())
    }
}

/// Whether White is to move and the game goes on.
fn position_accepted(p: &Position) -> Result<(), PlanFault>
    ensures { refusal_of result ≡ position_refusal p.now }
{
    match p.to_move() {
        Side::White => match p.ended() {
            Some(_) => Err(PlanFault::Ended),
            None => Ok(()),
        },
        Side::Black => Err(PlanFault::NotWhiteToMove),
    }
}

/// Whether each member fits, and each two may stand together; and where they do, the zones of all members are put into
/// the list.
fn members_accepted(
    p: &Position,
    list: &[Instance],
    zones: &mut ArrayVec<PlacedZone, MOST_ZONES>,
) -> Result<(), PlanFault>
    requires few { length list.now ≤ MOST_MEMBERS }
    requires none { zones.old.items ≡ [] }
    ensures fault { refusal_of result ≡ members_refusal p.now (written_list list.now) }
    ensures zones { IfOk result (λ _. zones.new.items ≡ zones_from (λ x. owns_zone (written x)) 1 list.now) }
{
    if let Some(member) = first_misfit(p, list) {
        return Err(PlanFault::Misfit(member));
    }
    match gather(p, list, zones) {
        Some(two) => Err(PlanFault::Clash(two.0, two.1)),
        None => Ok(()),
    }
}

/// What such members keep, where each empty square has a zone, each member is supported, and each group without a Black
/// man is barred.
fn cover_accepted(p: &Position, list: &[Instance], zones: &[PlacedZone]) -> Result<Kept, PlanFault>
    requires few { length list.now ≤ MOST_MEMBERS }
    requires members { StandTogether p.now (written_list list.now) }
    requires zones { zones.now ≡ zones_from (λ x. owns_zone (written x)) 1 list.now }
    ensures fault { refusal_of result ≡ cover_refusal p.now (written_list list.now) }
    ensures kept { IfOk result (λ kept. facts_in kept ≡ facts_of p.now (written_list list.now)) }
{
    if let Some(square) = first_uncovered(p, zones) {
        return Err(PlanFault::Uncovered(square));
    }
    let kept = facts_kept(p, list);
    if let Some(member) = first_unsupported(list, &kept) {
        return Err(PlanFault::Unsupported(member));
    }
    if let Some(group) = first_unanswered(p, list, &kept) {
        return Err(PlanFault::Unanswered(group));
    }
    Ok(kept)
}

/// The first empty square, in square order, that stands in none of the zones.
fn first_uncovered(p: &Position, zones: &[PlacedZone]) -> Option<Square>
    ensures { result ≡ find (λ u. is_empty p.now u && not (list_any (λ zone. has_square (zone_of (written zone.1)) u) zones.now)) (squares_of_board (board_of p.now)) }
{
    p.has_a_board();
    let uncovered = p.empties().without(owned_squares(zones));
    match uncovered.squares().as_slice() {
        [first, ..] => Some(*first),
        [] => None,
    }
}

/// The squares of all the zones.
fn owned_squares(zones: &[PlacedZone]) -> Mask
    ensures { IsSetOf (λ u. list_any (λ zone. has_square (zone_of (written zone.1)) u) zones.now) result }
{
    let mut owned = Mask::empty();
    for zone in zones {
        owned = owned.union(zone.squares());
    }
    owned
}

/// The first member without support, counted from 1.
fn first_unsupported(list: &[Instance], kept: &Kept) -> Option<u32>
    requires { length list.now ≤ MOST_MEMBERS }
    ensures { result ≡ position_from (λ w. not (is_supported w (facts_in kept.now))) 1 (written_list list.now) }
{
    for (index, instance) in list.iter().enumerate() {
        if !instance.is_supported(kept) {
            return Some(index as u32 + 1);
        }
    }
    None
}
