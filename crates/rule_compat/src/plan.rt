//! A plan: a list of instances by which Black keeps White from a line, the position at which it was found to be one,
//! and what is kept so that an answer takes no more than a look at its zones.
ghost use Rattle.std.specs.Prelude.{◌≡◌, ◌≤◌, true, length, is_none, Some};
ghost use Rattle.std.specs.List.{list_any, find};
ghost use Rattle.std.specs.Option.{option_and_then};
ghost use Rattle.game_rules.specs.Position.{board_of, has_man, after_move};
ghost use Rattle.game_rules.specs.Squares.{has_square, is_playable};
ghost use Rattle.game_rules.specs.Groups.{squares_of, lies_on};
ghost use Rattle.game_rules.specs.declared.Side.TheVariants as sides;
ghost use Rattle.plan_rules.specs.Rules.{zone_of, reply_to, facts_of};
ghost use Rattle.plan_rules.specs.Plan.{is_plan, plan_reply};
ghost use Rattle.plan_rules.specs.Zones.{owns_zone, zones_from};
ghost use Rattle.plan_rules.specs.Refusal.{answering};
ghost use Rattle.group_rules.specs.KeptFacts.{facts_in};
ghost use Rattle.rule_compat.specs.Written.{written, written_list};
ghost use Rattle.rule_compat.specs.Planned.{members, IsReached, HasMoved};
ghost use Rattle.plan_rules.specs.declared.TheConstants.{MOST_MEMBERS};

use crate::Instance;
use crate::lines::first_barring;
use crate::members::MOST_ZONES;
use crate::placed::PlacedZone;
use arrayvec::ArrayVec;
use group_rules::{GroupId, Kept, Position, Square, group_mask};
use plan_rules::MOST_MEMBERS;
use std::marker::Model;

/// A plan of Black's at a position. Every value of the type is one: it is only made of a list that passed each test.
#[derive(Drop)]
pub struct Plan {
    at: Position,
    list: ArrayVec<Instance, MOST_MEMBERS>,
    zones: ArrayVec<PlacedZone, MOST_ZONES>,
    kept: Kept,
}

impl Model for Plan {
    ghost use Rattle.group_rules.specs.KeptFacts.{facts_in};
    ghost use Rattle.rule_compat.specs.Planned.{Planned, IsKeptWith};

    ghost Value = { Planned };

    ghost view = { λ plan. record { at = plan.at; list = plan.list.items } };

    ghost invariant = { λ plan. IsKeptWith (record { at = plan.at; list = plan.list.items }) plan.zones.items (facts_in plan.kept) };
}

impl Plan {
    /// The plan that a list is at a position, with the zones and the facts of its members.
    pub(crate) fn of(
        p: &Position,
        list: &[Instance],
        zones: ArrayVec<PlacedZone, MOST_ZONES>,
        kept: Kept,
    ) -> Plan
        requires few { length list.now ≤ MOST_MEMBERS }
        requires plan { is_plan p.now (written_list list.now) ≡ true }
        requires zones { zones.items ≡ zones_from (λ x. owns_zone (written x)) 1 list.now }
        requires kept { facts_in kept ≡ facts_of p.now (written_list list.now) }
        ensures { result ≡ record { at = p.now; list = list.now } }
    {
        let mut copy = ArrayVec::new();
        copy.try_extend_from_slice(list).unwrap();
        Plan {
            at: *p,
            list: copy,
            zones,
            kept,
        }
    }

    /// The position at which the list is a plan. Play by the plan starts there.
    pub fn at(&self) -> &Position
        ensures value { result.now ≡ self.now.at }
        ensures plan { is_plan self.now.at (members self.now) ≡ true }
        ensures start { IsReached self.now self.now.at }
    {
        &self.at
    }

    /// The members, in the order in which they were given; at most `MOST_MEMBERS`.
    pub fn list(&self) -> &[Instance]
        ensures value { result.now ≡ self.now.list }
        ensures few { length self.now.list ≤ MOST_MEMBERS }
    {
        self.list.as_slice()
    }

    /// Black's answer to White's move to the square `last`, at the position `now` after it: the reply of the member
    /// that owns the square. White's move has to be a legal one, made at the plan's position or after some turns, each
    /// of a legal move of White's and the plan's answer to it. Then there always is an answer, a playable square, and
    /// after it the next move of White's can be answered in the same way.
    pub fn reply(&self, now: &Position, last: Square) -> Square
        requires { HasMoved self.now now.now last }
        ensures reply { plan_reply (members self.now) now.now last ≡ Some result }
        ensures playable { is_playable now.now result ≡ true }
        ensures next { IsReached self.now (after_move now.now result.0) }
    {
        zone_reply(self.zones.as_slice(), now, last).unwrap()
    }

    /// Which member answers a line of the board, counted from 1: the first that bars the squares of the line that are
    /// empty at the plan's position. None exactly where the line has a man of Black's there.
    pub fn answered_by(&self, g: GroupId) -> Option<u32>
        requires { lies_on (board_of self.now.at) g ≡ true }
        ensures member { result ≡ answering self.now.at (members self.now) g }
        ensures none { is_none result ≡ list_any (has_man self.now.at sides.Black) (squares_of g) }
    {
        if group_mask(g).meets(self.at.black()) {
            return None;
        }
        first_barring(&self.at, self.list.as_slice(), &self.kept, g)
    }
}

/// What the first of the zones that has the square answers to White's move there; None where none has it, or where
/// that one names no square.
fn zone_reply(zones: &[PlacedZone], now: &Position, last: Square) -> Option<Square>
    ensures { result ≡ option_and_then (λ zone. reply_to (written zone.1) now.now last) (find (λ zone. has_square (zone_of (written zone.1)) last) zones.now) }
{
    for zone in zones {
        if zone.has(last) {
            return zone.reply(now, last);
        }
    }
    None
}
