//! An instance of a zone rule with the set of its squares and that of their columns, so that two zones are compared
//! without computing them again: most share no column, which one look at two sets tells.
ghost use Rattle.std.specs.Prelude.{◌≡◌, ◌&&◌, true};
ghost use Rattle.std.specs.List.{list_all};
ghost use Rattle.game_rules.specs.Position.{Position as Men};
ghost use Rattle.game_rules.specs.Squares.{has_square, IsSetOf};
ghost use Rattle.plan_rules.specs.Rules.{zone_of, fits, barred, together};
ghost use Rattle.plan_rules.specs.Zones.{owns_zone};
ghost use Rattle.group_rules.specs.KeptFacts.{facts_in};
ghost use Rattle.rule_compat.specs.Written.{written, written_list};

use crate::Instance;
use crate::table::zones_may_stand;
use group_rules::{Kept, Mask, Rule};
use inverse_rules::Vertical;
use std::marker::Model;

/// An instance of a zone rule. A contract sees the instance.
#[derive(Clone, Copy, Drop)]
pub struct Zone {
    instance: Instance,
    squares: Mask,
    columns: Mask,
}

impl Model for Zone {
    ghost use Rattle.rule_compat.specs.declared.instance.Instance.{Instance};
    ghost use Rattle.rule_compat.specs.ZoneFields.{IsSound, fields_of, fields_told};

    ghost Value = { Instance };

    ghost view = { λ zone. zone.instance };

    ghost invariant = { IsSound };

    ghost inverse = { fields_of };

    ghost inverse_ok = { fields_told };
}

impl Default for Zone {
    ghost use Rattle.std.specs.Prelude.{◌≡◌};
    ghost use Rattle.rule_compat.specs.declared.instance.Instance.TheVariants as instances;

    ghost is_default = { λ zone. zone ≡ instances.Vertical (0, 2) };

    /// One without squares. A list has it where nothing stands, so it costs next to nothing.
    fn default() -> Self {
        let none = Mask::empty();
        Zone {
            instance: Instance::Vertical(Vertical::default()),
            squares: none,
            columns: none,
        }
    }
}

impl Zone {
    /// The zone of an instance that owns these squares.
    pub fn of(instance: Instance, squares: Mask) -> Zone
        requires { IsSetOf (has_square (zone_of (written instance))) squares }
        ensures { result ≡ instance }
    {
        Zone {
            instance,
            squares,
            columns: squares.columns(),
        }
    }

    /// The instance.
    pub fn instance(&self) -> Instance
        ensures { result ≡ self.now }
    {
        self.instance
    }

    /// The squares that it owns.
    pub fn squares(&self) -> Mask
        ensures { IsSetOf (has_square (zone_of (written self.now))) result }
    {
        self.squares
    }

    /// Whether it promises that White never owns the whole set. Where the set has none of its squares nothing more is
    /// asked.
    pub fn bars(&self, kept: &Kept, set: Mask) -> bool
        requires { (p : Men) × ((owns_zone (written self.now) && fits (written self.now) p) ≡ true) }
        ensures { result ≡ barred (written self.now) (facts_in kept.now) (has_square set) }
    {
        if !self.squares.meets(set) {
            return false;
        }
        self.instance.bars(kept, set)
    }

    /// Whether it may stand together with each of a set of zones.
    pub fn may_join(&self, set: &[Zone]) -> bool
        ensures { result ≡ list_all (λ v. together v (written self.now)) (written_list set.now) }
    {
        for member in set {
            if !member.may_stand(self) {
                return false;
            }
        }
        true
    }

    /// Whether it may stand together with another one.
    pub fn may_stand(&self, other: &Zone) -> bool
        ensures { result ≡ together (written self.now) (written other.now) }
    {
        zones_may_stand(
            &self.instance,
            &self.squares,
            &self.columns,
            &other.instance,
            &other.squares,
        )
    }
}
