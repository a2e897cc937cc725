//! An instance of any of the nine rules. Each call of a rule is passed on to the type of the rule, so that the laws hold
//! of all of them alike.
use base_rules::{Baseclaim, Baseinverse};
use claimeven::Claimeven;
use group_rules::{Aftereven, Before, Kept, Kind, Mask, Position, Rule, Specialbefore, Square};
use inverse_rules::{Highinverse, Lowinverse, Vertical};

/// An instance of one of the nine rules. The first five kinds own squares; the last four own none and rest on the others
/// of the same plan.
#[derive(Clone, Copy, PartialEq, Eq)]
pub enum Instance {
    Claimeven(Claimeven),
    Baseinverse(Baseinverse),
    Lowinverse(Lowinverse),
    Highinverse(Highinverse),
    Baseclaim(Baseclaim),
    Vertical(Vertical),
    Aftereven(Aftereven),
    Before(Before),
    Specialbefore(Specialbefore),
}

impl Default for Instance {
    ghost use Rattle.std.specs.Prelude.{◌≡◌};
    ghost use Rattle.rule_compat.specs.declared.instance.Instance.TheVariants as instances;

    ghost is_default = { λ x. x ≡ instances.Claimeven (0, 1) };

    /// The Claimeven of the two lowest squares of the first column, which every board has.
    fn default() -> Self {
        Instance::Claimeven(Claimeven::default())
    }
}

impl Instance {
    ghost use Rattle.std.specs.Prelude.{◌≡◌};
    ghost use Rattle.plan_rules.specs.Zones.{owns_zone};
    ghost use Rattle.rule_compat.specs.Written.{written};

    /// Whether it is an instance of one of the five rules that own squares.
    pub fn owns_zone(&self) -> bool
        ensures { result ≡ owns_zone (written self.now) }
    {
        match self {
            Instance::Claimeven(_)
            | Instance::Baseinverse(_)
            | Instance::Lowinverse(_)
            | Instance::Highinverse(_)
            | Instance::Baseclaim(_) => true,
            Instance::Vertical(_)
            | Instance::Aftereven(_)
            | Instance::Before(_)
            | Instance::Specialbefore(_) => false,
        }
    }
}

/// The same call on the instance of whichever rule it is.
macro_rules! of_each {
    ($instance:expr, $rule:ident => $call:expr) => {
        match $instance {
            Instance::Claimeven($rule) => $call,
            Instance::Baseinverse($rule) => $call,
            Instance::Lowinverse($rule) => $call,
            Instance::Highinverse($rule) => $call,
            Instance::Baseclaim($rule) => $call,
            Instance::Vertical($rule) => $call,
            Instance::Aftereven($rule) => $call,
            Instance::Before($rule) => $call,
            Instance::Specialbefore($rule) => $call,
        }
    };
}

impl Rule for Instance {
    ghost use Rattle.plan_rules.specs.Rules.{kind_of, zone_of, black_group_of, fits, reply_to, barred, is_supported, upper_of, pair_of, twin_of};
    ghost use Rattle.plan_rules.specs.Calm.{is_calm};
    ghost use Rattle.plan_rules.proofs.AllRules.{lawful};
    ghost use Rattle.rule_compat.specs.Written.{written};

    ghost kind = { λ x. kind_of (written x) };

    ghost zone = { λ x. zone_of (written x) };

    ghost fitted = { λ x. fits (written x) };

    ghost reply = { λ x. reply_to (written x) };

    ghost bars = { λ x. barred (written x) };

    ghost supported = { λ x. is_supported (written x) };

    ghost upper = { λ x. upper_of (written x) };

    ghost pair = { λ x. pair_of (written x) };

    ghost twin = { λ x. twin_of (written x) };

    ghost calm = { λ x. is_calm (written x) };

    ghost line = { λ x. black_group_of (written x) };

    fn kind(&self) -> Kind {
        of_each!(self, rule => rule.kind())
    }

    fn zone(&self) -> Mask {
        of_each!(self, rule => rule.zone())
    }

    fn fits(&self, p: &Position) -> bool {
        of_each!(self, rule => rule.fits(p))
    }

    fn reply(&self, now: &Position, last: Square) -> Option<Square> {
        of_each!(self, rule => rule.reply(now, last))
    }

    fn bars(&self, kept: &Kept, set: Mask) -> bool {
        of_each!(self, rule => rule.bars(kept, set))
    }

    fn is_supported(&self, kept: &Kept) -> bool {
        of_each!(self, rule => rule.is_supported(kept))
    }

    fn upper(&self) -> Mask {
        of_each!(self, rule => rule.upper())
    }

    fn pair(&self) -> Mask {
        of_each!(self, rule => rule.pair())
    }

    fn twin(&self) -> Option<(Square, Square)> {
        of_each!(self, rule => rule.twin())
    }

    ghost starts = { λ x. (lawful (written x)).starts };

    ghost is_local = { λ x. (lawful (written x)).is_local };

    ghost steps = { λ x. (lawful (written x)).steps };

    ghost bar = { λ x. (lawful (written x)).bars };

    ghost keeps = { λ x. (lawful (written x)).keeps };
}
