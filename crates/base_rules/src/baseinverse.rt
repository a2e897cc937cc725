//! The type of Baseinverses, its calls as a rule, and the list of those that fit.
ghost use Rattle.std.specs.Prelude.{◌≡◌, ◌+◌, ◌≤◌, ◌++◌, true, map, length, Some, None, if◌then◌else◌};
ghost use Rattle.game_rules.specs.Squares.{widest};
ghost use Rattle.plan_rules.specs.Rules.{baseinverse, is_shaped};
ghost use Rattle.plan_rules.specs.Listing.{listed};
ghost use Rattle.plan_rules.specs.declared.Kind.TheVariants as kinds;

use arrayvec::ArrayVec;
use rule_law::{Kept, Kind, Listed, Mask, Position, Rule, Size, Square, Taker, Way, list_pairs};
use std::marker::Model;

/// No board has more pairs of columns.
const MOST_BASEINVERSES: usize = 45;

/// Two squares, the column of the first left of that of the second. The rule is a part of this project's own profile
/// "after Allis".
#[derive(Clone, Copy, PartialEq, Eq)]
pub struct Baseinverse {
    s: Square,
    t: Square,
}

impl Model for Baseinverse {
    ghost use Rattle.std.specs.Prelude.{◌≡◌, ℕ, true};
    ghost use Rattle.game_rules.specs.Squares.{widest};
    ghost use Rattle.plan_rules.specs.Rules.{baseinverse, is_shaped};

    ghost Value = { (ℕ × ℕ) × (ℕ × ℕ) };

    ghost view = { λ a. (a.s, a.t) };

    ghost invariant = { λ a. is_shaped (baseinverse a.s a.t) widest ≡ true };

    ghost inverse = { λ x. record { s = x.0; t = x.1 } };
}

impl Default for Baseinverse {
    ghost use Rattle.std.specs.Prelude.{◌≡◌};

    ghost is_default = { λ x. x ≡ ((0, 1), (1, 1)) };

    /// The lowest squares of the first two columns, which every board has.
    fn default() -> Self {
        let s = Square::default();
        Baseinverse {
            s,
            t: s.step(Way::H, 1),
        }
    }
}

impl Baseinverse {
    /// The Baseinverse of these two squares; None exactly where one of them is off the board, or the column of `s` isn't
    /// left of that of `t`.
    pub fn new(size: Size, s: Square, t: Square) -> Option<Baseinverse>
        ensures value { result ≡ (if is_shaped (baseinverse s t) size then Some (s, t) else None) }
    {
        size.is_a_board();
        if s.column().index() < t.column().index() && size.has(s) && size.has(t) {
            Some(Baseinverse { s, t })
        } else {
            None
        }
    }

    /// The square of the column further left.
    pub fn s(&self) -> Square
        ensures value { result ≡ self.now.0 }
        ensures shaped { is_shaped (baseinverse self.now.0 self.now.1) widest ≡ true }
    {
        self.s
    }

    /// The square of the column further right.
    pub fn t(&self) -> Square
        ensures value { result ≡ self.now.1 }
        ensures shaped { is_shaped (baseinverse self.now.0 self.now.1) widest ≡ true }
    {
        self.t
    }
}

impl Rule for Baseinverse {
    ghost use Rattle.std.specs.Prelude.{None};
    ghost use Rattle.plan_rules.specs.Rules.{baseinverse, kind_of, zone_of, fits, reply_to, barred, is_supported, upper_of, pair_of, twin_of};
    ghost use Rattle.plan_rules.specs.Calm.{is_calm};
    ghost use Rattle.plan_rules.proofs.Baseinverse.{baseinverse_laws};

    ghost kind = { λ x. kind_of (baseinverse x.0 x.1) };

    ghost zone = { λ x. zone_of (baseinverse x.0 x.1) };

    ghost fitted = { λ x. fits (baseinverse x.0 x.1) };

    ghost reply = { λ x. reply_to (baseinverse x.0 x.1) };

    ghost bars = { λ x. barred (baseinverse x.0 x.1) };

    ghost supported = { λ x. is_supported (baseinverse x.0 x.1) };

    ghost upper = { λ x. upper_of (baseinverse x.0 x.1) };

    ghost pair = { λ x. pair_of (baseinverse x.0 x.1) };

    ghost twin = { λ x. twin_of (baseinverse x.0 x.1) };

    ghost calm = { λ x. is_calm (baseinverse x.0 x.1) };

    ghost line = { λ x. None };

    fn kind(&self) -> Kind {
        Kind::Baseinverse
    }

    fn zone(&self) -> Mask {
        Mask::of(&[self.s(), self.t()])
    }

    #[tactic(auto, using(plan_rules::proofs::Fits::baseinverse_fits))]
    fn fits(&self, p: &Position) -> bool {
        // a playable square is on the board and empty
        p.is_playable(self.s()) && p.is_playable(self.t())
    }

    fn reply(&self, _now: &Position, last: Square) -> Option<Square> {
        if last == self.s() {
            Some(self.t())
        } else if last == self.t() {
            Some(self.s())
        } else {
            None
        }
    }

    fn bars(&self, _kept: &Kept, set: Mask) -> bool {
        set.has(self.s()) && set.has(self.t())
    }

    fn is_supported(&self, _kept: &Kept) -> bool {
        true
    }

    fn upper(&self) -> Mask {
        Mask::empty()
    }

    fn pair(&self) -> Mask {
        Mask::empty()
    }

    fn twin(&self) -> Option<(Square, Square)> {
        Some((self.s(), self.t()))
    }

    ghost starts = { λ x. (baseinverse_laws x.0 x.1).starts };

    ghost is_local = { λ x. (baseinverse_laws x.0 x.1).is_local };

    ghost steps = { λ x. (baseinverse_laws x.0 x.1).steps };

    ghost bar = { λ x. (baseinverse_laws x.0 x.1).bars };

    ghost keeps = { λ x. (baseinverse_laws x.0 x.1).keeps };
}

impl Listed for Baseinverse {
    ghost use Rattle.std.specs.Prelude.{◌&&◌};
    ghost use Rattle.game_rules.specs.Squares.{is_playable};
    ghost use Rattle.plan_rules.specs.Rules.{baseinverse};

    type Site = (Square, Square);

    ghost instance = { λ x. baseinverse x.0 x.1 };

    ghost written = { λ x. baseinverse x.0 x.1 };

    ghost is_site = { λ p x. is_playable p x.0 && is_playable p x.1 };

    fn fitting_at(p: &Position, (s, t): (Square, Square)) -> Option<Baseinverse> {
        Baseinverse::new(p.size(), s, t)
    }
}

/// All Baseinverses that fit at the position, by `s` and then by `t` in square order.
pub fn list_baseinverse(p: &Position) -> ArrayVec<Baseinverse, MOST_BASEINVERSES>
    ensures { map (λ x. baseinverse x.0 x.1) result.items ≡ listed kinds.Baseinverse p.now }
{
    p.has_a_board();
    let mut list = ArrayVec::new();
    push_baseinverses(p, &mut list);
    list
}

/// Hands over all Baseinverses that fit at the position, in that order.
pub fn push_baseinverses<T: Taker<Baseinverse>>(p: &Position, taker: &mut T)
    requires { length (T.taken taker.old) + length (listed kinds.Baseinverse p.now) ≤ T.room taker.old }
    ensures taken { T.taken taker.new ≡ T.taken taker.old ++ listed kinds.Baseinverse p.now }
    ensures room { T.room taker.new ≡ T.room taker.old }
{
    let playables = p.playables();
    list_pairs(p, playables.as_slice(), playables.as_slice(), taker);
}
