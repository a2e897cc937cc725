//! The type of Verticals, its calls as a rule, and the list of those that fit.
ghost use Rattle.std.specs.Prelude.{◌≡◌, ◌+◌, ◌≤◌, ◌++◌, true, map, length, Some, None, if◌then◌else◌};
ghost use Rattle.game_rules.specs.Squares.{widest, IsSetOf};
ghost use Rattle.plan_rules.specs.Squares.{above};
ghost use Rattle.plan_rules.specs.Rules.{vertical, is_shaped, fits};
ghost use Rattle.plan_rules.specs.Listing.{listed};
ghost use Rattle.plan_rules.specs.declared.Kind.TheVariants as kinds;

use arrayvec::ArrayVec;
use rule_law::{Kept, Kind, Listed, Mask, Position, Rule, Size, Square, Taker, Way, list_fitting};
use std::marker::Model;

/// No board has more squares on even rows.
const MOST_VERTICALS: usize = 50;

/// A square on an even row, with another above it, of which White never owns both. The rule is a part of this project's own profile "after Allis".
#[derive(Clone, Copy, PartialEq, Eq)]
pub struct Vertical {
    e: Square,
}

impl Model for Vertical {
    ghost use Rattle.std.specs.Prelude.{◌≡◌, ℕ, true};
    ghost use Rattle.game_rules.specs.Squares.{widest};
    ghost use Rattle.plan_rules.specs.Rules.{vertical, is_shaped};

    ghost Value = { ℕ × ℕ };

    ghost view = { λ a. a.e };

    ghost invariant = { λ a. is_shaped (vertical a.e) widest ≡ true };

    ghost inverse = { λ s. record { e = s } };
}

impl Default for Vertical {
    ghost use Rattle.std.specs.Prelude.{◌≡◌};

    ghost is_default = { λ x. x ≡ (0, 2) };

    /// The lowest one of the first column, which every board has.
    fn default() -> Self {
        Vertical {
            e: Square::default().step(Way::V, 1),
        }
    }
}

impl Vertical {
    /// The Vertical of this square; None exactly where the square is off the board, on an odd row or in the top row.
    pub fn new(size: Size, e: Square) -> Option<Vertical>
        ensures value { result ≡ (if is_shaped (vertical e) size then Some e else None) }
    {
        size.is_a_board();
        if size.has(e) && e.row() % 2 == 0 && e.row() < size.rows() {
            Some(Vertical { e })
        } else {
            None
        }
    }

    /// The square on the even row.
    pub fn e(&self) -> Square
        ensures value { result ≡ self.now }
        ensures shaped { is_shaped (vertical self.now) widest ≡ true }
    {
        self.e
    }

    /// The square above it.
    fn over_e(&self) -> Square
        ensures { result ≡ above self.now }
    {
        self.e().step(Way::V, 1)
    }
}

impl Rule for Vertical {
    ghost use Rattle.std.specs.Prelude.{None};
    ghost use Rattle.plan_rules.specs.Rules.{vertical, kind_of, zone_of, fits, reply_to, barred, is_supported, upper_of, pair_of, twin_of};
    ghost use Rattle.plan_rules.specs.Calm.{is_calm};
    ghost use Rattle.plan_rules.proofs.Vertical.{vertical_laws};

    ghost kind = { λ x. kind_of (vertical x) };

    ghost zone = { λ x. zone_of (vertical x) };

    ghost fitted = { λ x. fits (vertical x) };

    ghost reply = { λ x. reply_to (vertical x) };

    ghost bars = { λ x. barred (vertical x) };

    ghost supported = { λ x. is_supported (vertical x) };

    ghost upper = { λ x. upper_of (vertical x) };

    ghost pair = { λ x. pair_of (vertical x) };

    ghost twin = { λ x. twin_of (vertical x) };

    ghost calm = { λ x. is_calm (vertical x) };

    ghost line = { λ x. None };

    fn kind(&self) -> Kind {
        Kind::Vertical
    }

    fn zone(&self) -> Mask {
        Mask::empty()
    }

    #[tactic(auto, using(plan_rules::proofs::Fits::vertical_fits))]
    fn fits(&self, p: &Position) -> bool {
        p.is_empty(self.e()) && p.is_empty(self.over_e())
    }

    fn reply(&self, _now: &Position, _last: Square) -> Option<Square> {
        None
    }

    fn bars(&self, _kept: &Kept, set: Mask) -> bool {
        set.has(self.e()) && set.has(self.over_e())
    }

    fn is_supported(&self, kept: &Kept) -> bool {
        kept.pair.has(self.e())
    }

    fn upper(&self) -> Mask {
        Mask::empty()
    }

    fn pair(&self) -> Mask {
        Mask::empty()
    }

    fn twin(&self) -> Option<(Square, Square)> {
        None
    }

    ghost starts = { λ x. (vertical_laws x).starts };

    ghost is_local = { λ x. (vertical_laws x).is_local };

    ghost steps = { λ x. (vertical_laws x).steps };

    ghost bar = { λ x. (vertical_laws x).bars };

    ghost keeps = { λ x. (vertical_laws x).keeps };
}

impl Listed for Vertical {
    ghost use Rattle.plan_rules.specs.Rules.{vertical, fits};

    type Site = Square;

    ghost instance = { vertical };

    ghost written = { vertical };

    ghost is_site = { λ p e. fits (vertical e) p };

    fn fitting_at(p: &Position, e: Square) -> Option<Vertical> {
        Vertical::new(p.size(), e)
    }
}

/// All Verticals that fit at the position, in square order.
pub fn list_vertical(p: &Position) -> ArrayVec<Vertical, MOST_VERTICALS>
    ensures { map vertical result.items ≡ listed kinds.Vertical p.now }
{
    p.has_a_board();
    let mut list = ArrayVec::new();
    push_verticals(p, &mut list);
    list
}

/// Hands over all Verticals that fit at the position, in that order.
pub fn push_verticals<T: Taker<Vertical>>(p: &Position, taker: &mut T)
    requires { length (T.taken taker.old) + length (listed kinds.Vertical p.now) ≤ T.room taker.old }
    ensures taken { T.taken taker.new ≡ T.taken taker.old ++ listed kinds.Vertical p.now }
    ensures room { T.room taker.new ≡ T.room taker.old }
{
    p.has_a_board();
    let squares = fitting_squares(p).squares();
    list_fitting(p, squares.as_slice(), taker);
}

/// The squares of the Verticals that fit: those on even rows that are empty with the square above them.
fn fitting_squares(p: &Position) -> Mask
    ensures { IsSetOf (λ e. fits (vertical e) p.now) result }
{
    p.has_a_board();
    let empties = p.empties();
    empties
        .intersection(empties.lowered())
        .without(Mask::odd_rows())
}
