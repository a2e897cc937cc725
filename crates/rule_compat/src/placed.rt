//! A zone of a list's, with the place of its member.
ghost use Rattle.std.specs.Prelude.{◌≡◌, not};
ghost use Rattle.std.specs.List.{find};
ghost use Rattle.std.specs.Option.{option_map};
ghost use Rattle.game_rules.specs.Squares.{has_square, IsSetOf};
ghost use Rattle.plan_rules.specs.Rules.{zone_of, reply_to, together};
ghost use Rattle.rule_compat.specs.Written.{written};

use crate::{Instance, Zone};
use group_rules::{Mask, Position, Rule, Square};
use std::marker::Model;

/// The zone of a member, which is counted from 1.
#[derive(Default, Drop)]
pub(crate) struct PlacedZone {
    place: u32,
    zone: Zone,
}

impl Model for PlacedZone {
    ghost use Rattle.std.specs.Prelude.{ℕ};
    ghost use Rattle.rule_compat.specs.declared.instance.Instance.{Instance};

    ghost Value = { ℕ × Instance };

    ghost view = { λ placed. (placed.place, placed.zone) };
}

impl PlacedZone {
    /// The zone of the member at this place of the list.
    pub(crate) fn of(place: u32, instance: &Instance) -> PlacedZone
        ensures { result ≡ (place, instance.now) }
    {
        PlacedZone {
            place,
            zone: Zone::of(*instance, instance.zone()),
        }
    }

    /// Its place in the list.
    pub(crate) fn place(&self) -> u32
        ensures { result ≡ self.now.0 }
    {
        self.place
    }

    /// Its squares.
    pub(crate) fn squares(&self) -> Mask
        ensures { IsSetOf (has_square (zone_of (written self.now.1))) result }
    {
        self.zone.squares()
    }

    /// Whether the square is one of the zone.
    pub(crate) fn has(&self, s: Square) -> bool
        ensures { result ≡ has_square (zone_of (written self.now.1)) s }
    {
        self.squares().has(s)
    }

    /// What the member answers to White's move to the square, at the position after it.
    pub(crate) fn reply(&self, now: &Position, last: Square) -> Option<Square>
        ensures { result ≡ reply_to (written self.now.1) now.now last }
    {
        self.zone.instance().reply(now, last)
    }

    /// Whether the two members may stand together.
    pub(crate) fn may_stand(&self, other: &PlacedZone) -> bool
        ensures { result ≡ together (written self.now.1) (written other.now.1) }
    {
        self.zone.may_stand(&other.zone)
    }
}

/// The place of the first of the zones that may not stand together with another one.
pub(crate) fn first_clash(zones: &[PlacedZone], zone: &PlacedZone) -> Option<u32>
    ensures { result ≡ option_map (λ earlier. earlier.0) (find (λ earlier. not (together (written earlier.1) (written zone.now.1))) zones.now) }
{
    for earlier in zones {
        if !earlier.may_stand(zone) {
            return Some(earlier.place());
        }
    }
    None
}
