//! The type of Befores, its calls as a rule, and the list of those that fit.
ghost use Rattle.std.specs.Prelude.{◌≡◌, ◌+◌, ◌≤◌, ◌++◌, map, length};
ghost use Rattle.plan_rules.specs.Rules.{before};
ghost use Rattle.plan_rules.specs.Listing.{listed};
ghost use Rattle.plan_rules.specs.declared.Kind.TheVariants as kinds;

use crate::line::{has_each_above, is_chosen_within, is_low_line, is_low_where_free};
use arrayvec::ArrayVec;
use game_rules::MOST_GROUPS;
use open_groups::{GroupId, free_for, group_mask};
use rule_law::{Kept, Kind, Listed, Mask, Position, Rule, Side, Square, Taker, list_fitting};
use std::marker::Model;

/// A line of Black's whose empty squares lie below the top row, and are upper squares of Claimevens or such that White
/// never owns them with the square above. The rule is a part of this project's own
/// profile "after Allis".
#[derive(Clone, Copy, PartialEq, Eq)]
pub struct Before {
    g: GroupId,
}

impl Model for Before {
    ghost use Rattle.game_rules.specs.Groups.{Group};

    ghost Value = { Group };

    ghost view = { λ a. a.g };

    ghost inverse = { λ g. record { g = g } };
}

impl Default for Before {
    ghost use Rattle.std.specs.Prelude.{◌≡◌};
    ghost use Rattle.game_rules.specs.declared.Way.TheVariants.{H};
    ghost use Rattle.game_rules.specs.declared.Length.TheVariants.{Four};

    ghost is_default = { λ g. g ≡ record { anchor = (0, 1); way = H; len = Four } };

    /// That of the lowest level group of the first four columns, which every board with lines of four has.
    fn default() -> Self {
        Before {
            g: GroupId::default(),
        }
    }
}

impl Before {
    /// The Before of this group. Its shape asks for nothing: whether the group is a line of a board is asked where it
    /// fits.
    pub fn new(g: GroupId) -> Before
        ensures { result ≡ g }
    {
        Before { g }
    }

    /// The group.
    pub fn g(&self) -> GroupId
        ensures { result ≡ self.now }
    {
        self.g
    }
}

impl Rule for Before {
    ghost use Rattle.std.specs.Prelude.{Some};
    ghost use Rattle.plan_rules.specs.Rules.{before, kind_of, zone_of, black_group_of, fits, reply_to, barred, is_supported, upper_of, pair_of, twin_of};
    ghost use Rattle.plan_rules.specs.Calm.{is_calm};
    ghost use Rattle.plan_rules.proofs.Before.{before_laws};

    ghost kind = { λ g. kind_of (before g) };

    ghost zone = { λ g. zone_of (before g) };

    ghost fitted = { λ g. fits (before g) };

    ghost reply = { λ g. reply_to (before g) };

    ghost bars = { λ g. barred (before g) };

    ghost supported = { λ g. is_supported (before g) };

    ghost upper = { λ g. upper_of (before g) };

    ghost pair = { λ g. pair_of (before g) };

    ghost twin = { λ g. twin_of (before g) };

    ghost calm = { λ g. is_calm (before g) };

    ghost line = { λ g. black_group_of (before g) };

    fn kind(&self) -> Kind {
        Kind::Before
    }

    fn zone(&self) -> Mask {
        Mask::empty()
    }

    fn fits(&self, p: &Position) -> bool {
        is_low_line(p, self.g())
    }

    fn reply(&self, _now: &Position, _last: Square) -> Option<Square> {
        None
    }

    fn bars(&self, kept: &Kept, set: Mask) -> bool {
        has_each_above(self.g(), kept.empty, set)
    }

    fn is_supported(&self, kept: &Kept) -> bool {
        is_chosen_within(self.g(), kept.empty, kept.upper.union(kept.pair))
    }

    fn upper(&self) -> Mask {
        Mask::empty()
    }

    fn pair(&self) -> Mask {
        Mask::empty()
    }

    fn twin(&self) -> Option<(Square, Square)> {
        None
    }

    ghost starts = { λ g. (before_laws g).starts };

    ghost is_local = { λ g. (before_laws g).is_local };

    ghost steps = { λ g. (before_laws g).steps };

    ghost bar = { λ g. (before_laws g).bars };

    ghost keeps = { λ g. (before_laws g).keeps };
}

impl Listed for Before {
    ghost use Rattle.std.specs.Prelude.{◌&&◌};
    ghost use Rattle.game_rules.specs.Position.{board_of};
    ghost use Rattle.game_rules.specs.Groups.{lies_on, is_free_for};
    ghost use Rattle.game_rules.specs.declared.Side.TheVariants.{Black};
    ghost use Rattle.plan_rules.specs.Rules.{before};

    type Site = GroupId;

    ghost instance = { before };

    ghost written = { before };

    ghost is_site = { λ p g. lies_on (board_of p) g && is_free_for Black p g };

    fn fitting_at(p: &Position, g: GroupId) -> Option<Before> {
        if is_low_where_free(p, g, group_mask(g)) {
            Some(Before { g })
        } else {
            None
        }
    }
}

/// All Befores that fit at the position, in group order.
pub fn list_before(p: &Position) -> ArrayVec<Before, MOST_GROUPS>
    ensures { map before result.items ≡ listed kinds.Before p.now }
{
    p.has_a_board();
    let mut list = ArrayVec::new();
    push_befores(p, &mut list);
    list
}

/// Hands over all Befores that fit at the position, in that order.
pub fn push_befores<T: Taker<Before>>(p: &Position, taker: &mut T)
    requires { length (T.taken taker.old) + length (listed kinds.Before p.now) ≤ T.room taker.old }
    ensures taken { T.taken taker.new ≡ T.taken taker.old ++ listed kinds.Before p.now }
    ensures room { T.room taker.new ≡ T.room taker.old }
{
    let groups = free_for(p, Side::Black).groups();
    list_fitting(p, groups.as_slice(), taker);
}
