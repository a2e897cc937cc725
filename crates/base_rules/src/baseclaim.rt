//! The type of Baseclaims, its calls as a rule, and the list of those that fit.
ghost use Rattle.std.specs.Prelude.{◌≡◌, ◌+◌, ◌≤◌, ◌++◌, true, map, length, Some, None, if◌then◌else◌};
ghost use Rattle.game_rules.specs.Squares.{widest};
ghost use Rattle.plan_rules.specs.Squares.{above};
ghost use Rattle.plan_rules.specs.Rules.{baseclaim, is_shaped};
ghost use Rattle.plan_rules.specs.Listing.{listed};
ghost use Rattle.plan_rules.specs.declared.Kind.TheVariants as kinds;

use arrayvec::ArrayVec;
use rule_law::{Kept, Kind, Listed, Mask, Position, Rule, Size, Square, Taker, Way, list_triples};
use std::marker::Model;

/// No board has more triples of columns.
const MOST_BASECLAIMS: usize = 720;

/// Three squares of three columns, the first and the third on even rows and the second on an odd row. The rule is a part
/// of this project's own profile "after Allis".
#[derive(Clone, Copy, PartialEq, Eq)]
pub struct Baseclaim {
    a: Square,
    b: Square,
    e: Square,
}

impl Model for Baseclaim {
    ghost use Rattle.std.specs.Prelude.{◌≡◌, ℕ, true};
    ghost use Rattle.game_rules.specs.Squares.{widest};
    ghost use Rattle.plan_rules.specs.Rules.{baseclaim, is_shaped};

    ghost Value = { (ℕ × ℕ) × (ℕ × ℕ) × (ℕ × ℕ) };

    ghost view = { λ x. (x.a, x.b, x.e) };

    ghost invariant = { λ x. is_shaped (baseclaim x.a x.b x.e) widest ≡ true };

    ghost inverse = { λ x. record { a = x.0; b = x.1; e = x.2 } };
}

impl Default for Baseclaim {
    ghost use Rattle.std.specs.Prelude.{◌≡◌};

    ghost is_default = { λ x. x ≡ ((0, 2), (1, 1), (2, 2)) };

    /// The lowest one of the first three columns, which every board has.
    fn default() -> Self {
        let corner = Square::default();
        let a = corner.step(Way::V, 1);
        Baseclaim {
            a,
            b: corner.step(Way::H, 1),
            e: a.step(Way::H, 2),
        }
    }
}

impl Baseclaim {
    /// The Baseclaim of these three squares; None exactly where one of them is off the board, two of them stand in one
    /// column, or one stands on a row of the other parity. Above a square on an odd row each board has another.
    pub fn new(size: Size, a: Square, b: Square, e: Square) -> Option<Baseclaim>
        ensures value { result ≡ (if is_shaped (baseclaim a b e) size then Some (a, b, e) else None) }
    {
        // a board has an even number of rows
        size.is_a_board();
        let on_board = size.has(a) && size.has(b) && size.has(e);
        let apart = a.column() != b.column()
            && a.column() != e.column()
            && b.column() != e.column();
        if on_board && apart && a.row() % 2 == 0 && b.row() % 2 == 1 && e.row() % 2 == 0 {
            Some(Baseclaim { a, b, e })
        } else {
            None
        }
    }

    /// The square on an even row that White never owns together with the square above `b`.
    pub fn a(&self) -> Square
        ensures value { result ≡ self.now.0 }
        ensures shaped { is_shaped (baseclaim self.now.0 self.now.1 self.now.2) widest ≡ true }
    {
        self.a
    }

    /// The square on an odd row.
    pub fn b(&self) -> Square
        ensures value { result ≡ self.now.1 }
        ensures shaped { is_shaped (baseclaim self.now.0 self.now.1 self.now.2) widest ≡ true }
    {
        self.b
    }

    /// The square on an even row that White never owns together with `b`.
    pub fn e(&self) -> Square
        ensures value { result ≡ self.now.2 }
        ensures shaped { is_shaped (baseclaim self.now.0 self.now.1 self.now.2) widest ≡ true }
    {
        self.e
    }

    /// The square above `b`.
    fn over_b(&self) -> Square
        ensures { result ≡ above self.now.1 }
    {
        self.b().step(Way::V, 1)
    }
}

impl Rule for Baseclaim {
    ghost use Rattle.std.specs.Prelude.{None};
    ghost use Rattle.plan_rules.specs.Rules.{baseclaim, kind_of, zone_of, fits, reply_to, barred, is_supported, upper_of, pair_of, twin_of};
    ghost use Rattle.plan_rules.specs.Calm.{is_calm};
    ghost use Rattle.plan_rules.proofs.Baseclaim.{baseclaim_laws};

    ghost kind = { λ x. kind_of (baseclaim x.0 x.1 x.2) };

    ghost zone = { λ x. zone_of (baseclaim x.0 x.1 x.2) };

    ghost fitted = { λ x. fits (baseclaim x.0 x.1 x.2) };

    ghost reply = { λ x. reply_to (baseclaim x.0 x.1 x.2) };

    ghost bars = { λ x. barred (baseclaim x.0 x.1 x.2) };

    ghost supported = { λ x. is_supported (baseclaim x.0 x.1 x.2) };

    ghost upper = { λ x. upper_of (baseclaim x.0 x.1 x.2) };

    ghost pair = { λ x. pair_of (baseclaim x.0 x.1 x.2) };

    ghost twin = { λ x. twin_of (baseclaim x.0 x.1 x.2) };

    ghost calm = { λ x. is_calm (baseclaim x.0 x.1 x.2) };

    ghost line = { λ x. None };

    fn kind(&self) -> Kind {
        Kind::Baseclaim
    }

    fn zone(&self) -> Mask {
        Mask::of(&[self.a(), self.b(), self.e(), self.over_b()])
    }

    #[tactic(auto, using(plan_rules::proofs::Fits::baseclaim_fits))]
    fn fits(&self, p: &Position) -> bool {
        // above a playable square on an odd row there is an empty one
        p.has_a_board();
        p.is_playable(self.a()) && p.is_playable(self.b()) && p.is_playable(self.e())
    }

    fn reply(&self, now: &Position, last: Square) -> Option<Square> {
        if last == self.a() || last == self.b() {
            if now.is_empty(self.e()) {
                Some(self.e())
            } else {
                Some(self.over_b())
            }
        } else if last == self.e() {
            Some(self.b())
        } else if last == self.over_b() {
            Some(self.a())
        } else {
            None
        }
    }

    fn bars(&self, _kept: &Kept, set: Mask) -> bool {
        (set.has(self.a()) && set.has(self.over_b())) || (set.has(self.b()) && set.has(self.e()))
    }

    fn is_supported(&self, _kept: &Kept) -> bool {
        true
    }

    fn upper(&self) -> Mask {
        Mask::empty()
    }

    fn pair(&self) -> Mask {
        Mask::empty()
    }

    fn twin(&self) -> Option<(Square, Square)> {
        None
    }

    ghost starts = { λ x. (baseclaim_laws x.0 x.1 x.2).starts };

    ghost is_local = { λ x. (baseclaim_laws x.0 x.1 x.2).is_local };

    ghost steps = { λ x. (baseclaim_laws x.0 x.1 x.2).steps };

    ghost bar = { λ x. (baseclaim_laws x.0 x.1 x.2).bars };

    ghost keeps = { λ x. (baseclaim_laws x.0 x.1 x.2).keeps };
}

impl Listed for Baseclaim {
    ghost use Rattle.std.specs.Prelude.{◌&&◌};
    ghost use Rattle.game_rules.specs.Squares.{is_playable};
    ghost use Rattle.plan_rules.specs.Rules.{baseclaim};

    type Site = (Square, (Square, Square));

    ghost instance = { λ x. baseclaim x.0 x.1 x.2 };

    ghost written = { λ x. baseclaim x.0 x.1.0 x.1.1 };

    ghost is_site = { λ p x. is_playable p x.0 && is_playable p x.1.0 && is_playable p x.1.1 };

    fn fitting_at(p: &Position, (a, (b, e)): (Square, (Square, Square))) -> Option<Baseclaim> {
        Baseclaim::new(p.size(), a, b, e)
    }
}

/// All Baseclaims that fit at the position, by `a`, then by `b` and then by `e` in square order.
pub fn list_baseclaim(p: &Position) -> ArrayVec<Baseclaim, MOST_BASECLAIMS>
    ensures { map (λ x. baseclaim x.0 x.1 x.2) result.items ≡ listed kinds.Baseclaim p.now }
{
    p.has_a_board();
    let mut list = ArrayVec::new();
    push_baseclaims(p, &mut list);
    list
}

/// Hands over all Baseclaims that fit at the position, in that order.
pub fn push_baseclaims<T: Taker<Baseclaim>>(p: &Position, taker: &mut T)
    requires { length (T.taken taker.old) + length (listed kinds.Baseclaim p.now) ≤ T.room taker.old }
    ensures taken { T.taken taker.new ≡ T.taken taker.old ++ listed kinds.Baseclaim p.now }
    ensures room { T.room taker.new ≡ T.room taker.old }
{
    p.has_a_board();
    let playables = Mask::of(p.playables().as_slice());
    let evens = playables.without(Mask::odd_rows()).squares();
    let odds = playables.intersection(Mask::odd_rows()).squares();
    list_triples(
        p,
        evens.as_slice(),
        odds.as_slice(),
        evens.as_slice(),
        taker,
    );
}
