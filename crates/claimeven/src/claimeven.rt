//! The type of Claimevens, its calls as a rule, and the list of those that fit.
ghost use Rattle.std.specs.Prelude.{◌≡◌, ◌+◌, ◌≤◌, ◌++◌, ◌&&◌, true, map, length, Some, None, if◌then◌else◌, is_some};
ghost use Rattle.game_rules.specs.Board.{on_board};
ghost use Rattle.game_rules.specs.Squares.{widest, IsSetOf};
ghost use Rattle.plan_rules.specs.Squares.{above, is_odd};
ghost use Rattle.plan_rules.specs.Rules.{claimeven, is_shaped, fits};
ghost use Rattle.plan_rules.specs.Listing.{listed};
ghost use Rattle.plan_rules.specs.declared.Kind.TheVariants as kinds;

use arrayvec::ArrayVec;
use rule_law::{Kept, Kind, Listed, Mask, Position, Rule, Size, Square, Taker, Way, list_fitting};
use std::marker::Model;

/// No board has more squares on odd rows.
const MOST_CLAIMEVENS: usize = 50;

/// A square on an odd row, which owns the square above it too. The rule is a part of this project's own profile "after
/// Allis".
#[derive(Clone, Copy, PartialEq, Eq)]
pub struct Claimeven {
    lower: Square,
}

impl Model for Claimeven {
    ghost use Rattle.std.specs.Prelude.{◌≡◌, ℕ, true};
    ghost use Rattle.game_rules.specs.Squares.{widest};
    ghost use Rattle.plan_rules.specs.Rules.{claimeven, is_shaped};

    ghost Value = { ℕ × ℕ };

    ghost view = { λ a. a.lower };

    ghost invariant = { λ a. is_shaped (claimeven a.lower) widest ≡ true };

    ghost inverse = { λ s. record { lower = s } };
}

impl Default for Claimeven {
    ghost use Rattle.std.specs.Prelude.{◌≡◌};

    ghost is_default = { λ x. x ≡ (0, 1) };

    /// That of the two lowest squares of the first column, which every board has.
    fn default() -> Self {
        Claimeven {
            lower: Square::default(),
        }
    }
}

impl Claimeven {
    /// The Claimeven with this lower square; None exactly where the square is off the board or on an even row. Above a
    /// square on an odd row each board has another.
    pub fn new(size: Size, lower: Square) -> Option<Claimeven>
        ensures value { result ≡ (if is_shaped (claimeven lower) size then Some lower else None) }
        ensures odd { is_some result ≡ (on_board size lower && is_odd lower.1) }
    {
        // a board has an even number of rows
        size.is_a_board();
        if size.has(lower) && lower.row() % 2 == 1 {
            Some(Claimeven { lower })
        } else {
            None
        }
    }

    /// The lower square.
    pub fn lower(&self) -> Square
        ensures value { result ≡ self.now }
        ensures shaped { is_shaped (claimeven self.now) widest ≡ true }
    {
        self.lower
    }

    /// The square above it.
    fn upper_square(&self) -> Square
        ensures { result ≡ above self.now }
    {
        self.lower().step(Way::V, 1)
    }
}

impl Rule for Claimeven {
    ghost use Rattle.std.specs.Prelude.{None};
    ghost use Rattle.plan_rules.specs.Rules.{claimeven, kind_of, zone_of, fits, reply_to, barred, is_supported, upper_of, pair_of, twin_of};
    ghost use Rattle.plan_rules.specs.Calm.{is_calm};
    ghost use Rattle.plan_rules.proofs.Claimeven.{claimeven_start, claimeven_local, claimeven_step, claimeven_bars, claimeven_keeps};

    ghost kind = { λ x. kind_of (claimeven x) };

    ghost zone = { λ x. zone_of (claimeven x) };

    ghost fitted = { λ x. fits (claimeven x) };

    ghost reply = { λ x. reply_to (claimeven x) };

    ghost bars = { λ x. barred (claimeven x) };

    ghost supported = { λ x. is_supported (claimeven x) };

    ghost upper = { λ x. upper_of (claimeven x) };

    ghost pair = { λ x. pair_of (claimeven x) };

    ghost twin = { λ x. twin_of (claimeven x) };

    ghost calm = { λ x. is_calm (claimeven x) };

    ghost line = { λ x. None };

    fn kind(&self) -> Kind {
        Kind::Claimeven
    }

    fn zone(&self) -> Mask {
        Mask::of(&[self.lower(), self.upper_square()])
    }

    fn fits(&self, p: &Position) -> bool {
        // its contract says that the row is odd
        let _shaped = self.lower();
        p.is_empty(self.lower()) && p.is_empty(self.upper_square())
    }

    #[tactic(auto, using(plan_rules::proofs::Replies::claimeven_missing))]
    fn reply(&self, _now: &Position, last: Square) -> Option<Square> {
        if last == self.lower() {
            Some(self.upper_square())
        } else {
            None
        }
    }

    fn bars(&self, _kept: &Kept, set: Mask) -> bool {
        set.has(self.upper_square())
    }

    fn is_supported(&self, _kept: &Kept) -> bool {
        true
    }

    fn upper(&self) -> Mask {
        Mask::of(&[self.upper_square()])
    }

    fn pair(&self) -> Mask {
        Mask::empty()
    }

    fn twin(&self) -> Option<(Square, Square)> {
        None
    }

    ghost starts = { claimeven_start };

    ghost is_local = { claimeven_local };

    ghost steps = { claimeven_step };

    ghost bar = { claimeven_bars };

    ghost keeps = { claimeven_keeps };
}

impl Listed for Claimeven {
    ghost use Rattle.plan_rules.specs.Rules.{claimeven, fits};

    type Site = Square;

    ghost instance = { claimeven };

    ghost written = { claimeven };

    ghost is_site = { λ p lower. fits (claimeven lower) p };

    fn fitting_at(p: &Position, lower: Square) -> Option<Claimeven> {
        Claimeven::new(p.size(), lower)
    }
}

/// All Claimevens that fit at the position, in square order of their lower squares.
pub fn list_claimeven(p: &Position) -> ArrayVec<Claimeven, MOST_CLAIMEVENS>
    ensures { map claimeven result.items ≡ listed kinds.Claimeven p.now }
{
    p.has_a_board();
    let mut list = ArrayVec::new();
    push_claimevens(p, &mut list);
    list
}

/// Hands over all Claimevens that fit at the position, in that order.
pub fn push_claimevens<T: Taker<Claimeven>>(p: &Position, taker: &mut T)
    requires { length (T.taken taker.old) + length (listed kinds.Claimeven p.now) ≤ T.room taker.old }
    ensures taken { T.taken taker.new ≡ T.taken taker.old ++ listed kinds.Claimeven p.now }
    ensures room { T.room taker.new ≡ T.room taker.old }
{
    p.has_a_board();
    let lowers = lowers(p).squares();
    list_fitting(p, lowers.as_slice(), taker);
}

/// The lower squares of the Claimevens that fit: those on odd rows that are empty with the square above them.
fn lowers(p: &Position) -> Mask
    ensures { IsSetOf (λ lower. fits (claimeven lower) p.now) result }
{
    p.has_a_board();
    let empties = p.empties();
    empties
        .intersection(empties.lowered())
        .intersection(Mask::odd_rows())
}
