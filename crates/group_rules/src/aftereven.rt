//! The type of Afterevens, its calls as a rule, and the list of those that fit.
ghost use Rattle.std.specs.Prelude.{◌≡◌, ◌+◌, ◌≤◌, ◌++◌, map, length};
ghost use Rattle.plan_rules.specs.Rules.{aftereven};
ghost use Rattle.plan_rules.specs.Listing.{listed};
ghost use Rattle.plan_rules.specs.declared.Kind.TheVariants as kinds;

use crate::line::{has_some_above_each, is_chosen_within, is_open_line, is_open_where_free};
use arrayvec::ArrayVec;
use game_rules::MOST_GROUPS;
use open_groups::{GroupId, free_for, group_mask};
use rule_law::{Kept, Kind, Listed, Mask, Position, Rule, Side, Square, Taker, list_fitting};
use std::marker::Model;

/// A line of Black's whose empty squares are all upper squares of Claimevens. The rule is a part of this project's own
/// profile "after Allis".
#[derive(Clone, Copy, PartialEq, Eq)]
pub struct Aftereven {
    g: GroupId,
}

impl Model for Aftereven {
    ghost use Rattle.game_rules.specs.Groups.{Group};

    ghost Value = { Group };

    ghost view = { λ a. a.g };

    ghost inverse = { λ g. record { g = g } };
}

impl Default for Aftereven {
    ghost use Rattle.std.specs.Prelude.{◌≡◌};
    ghost use Rattle.game_rules.specs.declared.Way.TheVariants.{H};
    ghost use Rattle.game_rules.specs.declared.Length.TheVariants.{Four};

    ghost is_default = { λ g. g ≡ record { anchor = (0, 1); way = H; len = Four } };

    /// That of the lowest level group of the first four columns, which every board with lines of four has.
    fn default() -> Self {
        Aftereven {
            g: GroupId::default(),
        }
    }
}

impl Aftereven {
    /// The Aftereven of this group. Its shape asks for nothing: whether the group is a line of a board is asked where it
    /// fits.
    pub fn new(g: GroupId) -> Aftereven
        ensures { result ≡ g }
    {
        Aftereven { g }
    }

    /// The group.
    pub fn g(&self) -> GroupId
        ensures { result ≡ self.now }
    {
        self.g
    }
}

impl Rule for Aftereven {
    ghost use Rattle.std.specs.Prelude.{Some};
    ghost use Rattle.plan_rules.specs.Rules.{aftereven, kind_of, zone_of, black_group_of, fits, reply_to, barred, is_supported, upper_of, pair_of, twin_of};
    ghost use Rattle.plan_rules.specs.Calm.{is_calm};
    ghost use Rattle.plan_rules.proofs.Aftereven.{aftereven_laws};

    ghost kind = { λ g. kind_of (aftereven g) };

    ghost zone = { λ g. zone_of (aftereven g) };

    ghost fitted = { λ g. fits (aftereven g) };

    ghost reply = { λ g. reply_to (aftereven g) };

    ghost bars = { λ g. barred (aftereven g) };

    ghost supported = { λ g. is_supported (aftereven g) };

    ghost upper = { λ g. upper_of (aftereven g) };

    ghost pair = { λ g. pair_of (aftereven g) };

    ghost twin = { λ g. twin_of (aftereven g) };

    ghost calm = { λ g. is_calm (aftereven g) };

    ghost line = { λ g. black_group_of (aftereven g) };

    fn kind(&self) -> Kind {
        Kind::Aftereven
    }

    fn zone(&self) -> Mask {
        Mask::empty()
    }

    fn fits(&self, p: &Position) -> bool {
        is_open_line(p, self.g())
    }

    fn reply(&self, _now: &Position, _last: Square) -> Option<Square> {
        None
    }

    fn bars(&self, kept: &Kept, set: Mask) -> bool {
        has_some_above_each(self.g(), kept.empty, set)
    }

    fn is_supported(&self, kept: &Kept) -> bool {
        is_chosen_within(self.g(), kept.empty, kept.upper)
    }

    fn upper(&self) -> Mask {
        Mask::empty()
    }

    fn pair(&self) -> Mask {
        Mask::empty()
    }

    fn twin(&self) -> Option<(Square, Square)> {
        None
    }

    ghost starts = { λ g. (aftereven_laws g).starts };

    ghost is_local = { λ g. (aftereven_laws g).is_local };

    ghost steps = { λ g. (aftereven_laws g).steps };

    ghost bar = { λ g. (aftereven_laws g).bars };

    ghost keeps = { λ g. (aftereven_laws g).keeps };
}

impl Listed for Aftereven {
    ghost use Rattle.std.specs.Prelude.{◌&&◌};
    ghost use Rattle.game_rules.specs.Position.{board_of};
    ghost use Rattle.game_rules.specs.Groups.{lies_on, is_free_for};
    ghost use Rattle.game_rules.specs.declared.Side.TheVariants.{Black};
    ghost use Rattle.plan_rules.specs.Rules.{aftereven};

    type Site = GroupId;

    ghost instance = { aftereven };

    ghost written = { aftereven };

    ghost is_site = { λ p g. lies_on (board_of p) g && is_free_for Black p g };

    fn fitting_at(p: &Position, g: GroupId) -> Option<Aftereven> {
        if is_open_where_free(p, g, group_mask(g)) {
            Some(Aftereven { g })
        } else {
            None
        }
    }
}

/// All Afterevens that fit at the position, in group order.
pub fn list_aftereven(p: &Position) -> ArrayVec<Aftereven, MOST_GROUPS>
    ensures { map aftereven result.items ≡ listed kinds.Aftereven p.now }
{
    p.has_a_board();
    let mut list = ArrayVec::new();
    push_afterevens(p, &mut list);
    list
}

/// Hands over all Afterevens that fit at the position, in that order.
pub fn push_afterevens<T: Taker<Aftereven>>(p: &Position, taker: &mut T)
    requires { length (T.taken taker.old) + length (listed kinds.Aftereven p.now) ≤ T.room taker.old }
    ensures taken { T.taken taker.new ≡ T.taken taker.old ++ listed kinds.Aftereven p.now }
    ensures room { T.room taker.new ≡ T.room taker.old }
{
    let groups = free_for(p, Side::Black).groups();
    list_fitting(p, groups.as_slice(), taker);
}
