//! The type of Highinverses, its calls as a rule, and the list of those that fit.
ghost use Rattle.std.specs.Prelude.{◌≡◌, ◌+◌, ◌≤◌, ◌++◌, true, map, length, Some, None, if◌then◌else◌};
ghost use Rattle.game_rules.specs.Board.{on_board};
ghost use Rattle.game_rules.specs.Squares.{widest};
ghost use Rattle.plan_rules.specs.Squares.{above};
ghost use Rattle.plan_rules.specs.Rules.{highinverse, is_shaped, high_reply};
ghost use Rattle.plan_rules.specs.Listing.{listed};
ghost use Rattle.plan_rules.specs.declared.Kind.TheVariants as kinds;

use crate::ground::{bottoms, is_common_ground, is_grounded};
use arrayvec::ArrayVec;
use rule_law::{Kept, Kind, Listed, Mask, Position, Rule, Size, Square, Taker, Way, list_pairs};
use std::marker::Model;

/// No board has more pairs of columns.
const MOST_HIGHINVERSES: usize = 45;

/// The bottoms of two columns of three squares each, both on even rows, the first further left. The rule is a part of
/// this project's own profile "after Allis".
#[derive(Clone, Copy, PartialEq, Eq)]
pub struct Highinverse {
    x: Square,
    y: Square,
}

impl Model for Highinverse {
    ghost use Rattle.std.specs.Prelude.{◌≡◌, ℕ, true};
    ghost use Rattle.game_rules.specs.Squares.{widest};
    ghost use Rattle.plan_rules.specs.Rules.{highinverse, is_shaped};

    ghost Value = { (ℕ × ℕ) × (ℕ × ℕ) };

    ghost view = { λ a. (a.x, a.y) };

    ghost invariant = { λ a. is_shaped (highinverse a.x a.y) widest ≡ true };

    ghost inverse = { λ v. record { x = v.0; y = v.1 } };
}

impl Default for Highinverse {
    ghost use Rattle.std.specs.Prelude.{◌≡◌};

    ghost is_default = { λ h. h ≡ ((0, 2), (1, 2)) };

    /// The lowest one of the first two columns, which every board has.
    fn default() -> Self {
        let x = Square::default().step(Way::V, 1);
        Highinverse {
            x,
            y: x.step(Way::H, 1),
        }
    }
}

impl Highinverse {
    /// The Highinverse of these two bottoms; None exactly where one of them is off the board, on an odd row or in one of
    /// the two top rows, or the column of `x` isn't left of that of `y`.
    pub fn new(size: Size, x: Square, y: Square) -> Option<Highinverse>
        ensures value { result ≡ (if is_shaped (highinverse x y) size then Some (x, y) else None) }
    {
        size.is_a_board();
        let on_board = size.has(x)
            && size.has(y)
            && x.row() + 2 <= size.rows()
            && y.row() + 2 <= size.rows();
        let ordered = x.column().index() < y.column().index();
        if on_board && ordered && x.row() % 2 == 0 && y.row() % 2 == 0 {
            Some(Highinverse { x, y })
        } else {
            None
        }
    }

    /// The bottom of the column further left.
    pub fn x(&self) -> Square
        ensures value { result ≡ self.now.0 }
        ensures shaped { is_shaped (highinverse self.now.0 self.now.1) widest ≡ true }
    {
        self.x
    }

    /// The bottom of the column further right.
    pub fn y(&self) -> Square
        ensures value { result ≡ self.now.1 }
        ensures shaped { is_shaped (highinverse self.now.0 self.now.1) widest ≡ true }
    {
        self.y
    }

    fn x_middle(&self) -> Square
        ensures { result ≡ above self.now.0 }
    {
        self.x().step(Way::V, 1)
    }

    fn x_top(&self) -> Square
        ensures { result ≡ above (above self.now.0) }
    {
        self.x().step(Way::V, 2)
    }

    fn y_middle(&self) -> Square
        ensures { result ≡ above self.now.1 }
    {
        self.y().step(Way::V, 1)
    }

    fn y_top(&self) -> Square
        ensures { result ≡ above (above self.now.1) }
    {
        self.y().step(Way::V, 2)
    }
}

impl Rule for Highinverse {
    ghost use Rattle.std.specs.Prelude.{None};
    ghost use Rattle.plan_rules.specs.Rules.{highinverse, kind_of, zone_of, fits, reply_to, barred, is_supported, upper_of, pair_of, twin_of};
    ghost use Rattle.plan_rules.specs.Calm.{is_calm};
    ghost use Rattle.plan_rules.proofs.Highinverse.{highinverse_laws};

    ghost kind = { λ x. kind_of (highinverse x.0 x.1) };

    ghost zone = { λ x. zone_of (highinverse x.0 x.1) };

    ghost fitted = { λ x. fits (highinverse x.0 x.1) };

    ghost reply = { λ x. reply_to (highinverse x.0 x.1) };

    ghost bars = { λ x. barred (highinverse x.0 x.1) };

    ghost supported = { λ x. is_supported (highinverse x.0 x.1) };

    ghost upper = { λ x. upper_of (highinverse x.0 x.1) };

    ghost pair = { λ x. pair_of (highinverse x.0 x.1) };

    ghost twin = { λ x. twin_of (highinverse x.0 x.1) };

    ghost calm = { λ x. is_calm (highinverse x.0 x.1) };

    ghost line = { λ x. None };

    fn kind(&self) -> Kind {
        Kind::Highinverse
    }

    fn zone(&self) -> Mask {
        Mask::of(&[
            self.x(),
            self.x_middle(),
            self.x_top(),
            self.y(),
            self.y_middle(),
            self.y_top(),
        ])
    }

    #[tactic(auto, using(plan_rules::proofs::Fits::highinverse_fits))]
    fn fits(&self, p: &Position) -> bool {
        // on its ground a column has no man, so its squares are empty where its top is on the board
        p.size().has(self.x_top())
            && p.size().has(self.y_top())
            && is_grounded(p, self.x(), self.y())
    }

    fn reply(&self, now: &Position, last: Square) -> Option<Square> {
        if last.column() == self.x().column() {
            answer(self.x(), self.y(), now, last)
        } else {
            answer(self.y(), self.x(), now, last)
        }
    }

    fn bars(&self, _kept: &Kept, set: Mask) -> bool {
        let (x_middle, x_top) = (set.has(self.x_middle()), set.has(self.x_top()));
        let (y_middle, y_top) = (set.has(self.y_middle()), set.has(self.y_top()));
        (x_top && y_top)
            || (x_middle && y_middle)
            || (x_middle && x_top)
            || (y_middle && y_top)
            || (set.has(self.x()) && y_top)
            || (set.has(self.y()) && x_top)
    }

    fn is_supported(&self, _kept: &Kept) -> bool {
        true
    }

    fn upper(&self) -> Mask {
        Mask::empty()
    }

    fn pair(&self) -> Mask {
        Mask::of(&[self.x_middle(), self.y_middle()])
    }

    fn twin(&self) -> Option<(Square, Square)> {
        None
    }

    ghost starts = { λ x. (highinverse_laws x.0 x.1).starts };

    ghost is_local = { λ x. (highinverse_laws x.0 x.1).is_local };

    ghost steps = { λ x. (highinverse_laws x.0 x.1).steps };

    ghost bar = { λ x. (highinverse_laws x.0 x.1).bars };

    ghost keeps = { λ x. (highinverse_laws x.0 x.1).keeps };
}

impl Listed for Highinverse {
    ghost use Rattle.std.specs.Prelude.{◌&&◌};
    ghost use Rattle.plan_rules.specs.Rules.{highinverse};
    ghost use Rattle.plan_rules.specs.Listing.{is_bottom};

    type Site = (Square, Square);

    ghost instance = { λ x. highinverse x.0 x.1 };

    ghost written = { λ x. highinverse x.0 x.1 };

    ghost is_site = { λ p x. is_bottom p x.0 && is_bottom p x.1 };

    fn fitting_at(p: &Position, (x, y): (Square, Square)) -> Option<Highinverse> {
        if x.column().index() < y.column().index() && is_common_ground(p, x, y) {
            Highinverse::new(p.size(), x, y)
        } else {
            None
        }
    }
}

/// All Highinverses that fit at the position, by `x` and then by `y` in square order.
pub fn list_highinverse(p: &Position) -> ArrayVec<Highinverse, MOST_HIGHINVERSES>
    ensures { map (λ x. highinverse x.0 x.1) result.items ≡ listed kinds.Highinverse p.now }
{
    p.has_a_board();
    let mut list = ArrayVec::new();
    push_highinverses(p, &mut list);
    list
}

/// Hands over all Highinverses that fit at the position, in that order.
pub fn push_highinverses<T: Taker<Highinverse>>(p: &Position, taker: &mut T)
    requires { length (T.taken taker.old) + length (listed kinds.Highinverse p.now) ≤ T.room taker.old }
    ensures taken { T.taken taker.new ≡ T.taken taker.old ++ listed kinds.Highinverse p.now }
    ensures room { T.room taker.new ≡ T.room taker.old }
{
    let bottoms = bottoms(p);
    list_pairs(p, bottoms.as_slice(), bottoms.as_slice(), taker);
}

/// The answer to a move in the column of three squares with the bottom `u`, beside that with the bottom `v`.
fn answer(u: Square, v: Square, now: &Position, last: Square) -> Option<Square>
    requires u_top { on_board widest (above (above u)) ≡ true }
    requires v_top { on_board widest (above (above v)) ≡ true }
    ensures { result ≡ high_reply u v now.now last }
{
    if last == u {
        // its own middle while the other bottom is empty, else the other top
        let free = now.is_empty(v);
        Some(if free {
            u.step(Way::V, 1)
        } else {
            v.step(Way::V, 2)
        })
    } else if last == u.step(Way::V, 1) {
        Some(u.step(Way::V, 2))
    } else if last == u.step(Way::V, 2) {
        Some(v)
    } else {
        None
    }
}
