//! The type of Specialbefores, its calls as a rule, and the list of those that fit.
ghost use Rattle.std.specs.Prelude.{◌≡◌, ◌+◌, ◌≤◌, ◌++◌, ◌&&◌, ◌||◌, true, map, length, Some, None, if◌then◌else◌};
ghost use Rattle.game_rules.specs.Position.{board_of};
ghost use Rattle.game_rules.specs.Squares.{has_square, same_square, widest_with, IsSetOf};
ghost use Rattle.game_rules.specs.Groups.{lies_on, is_free_for};
ghost use Rattle.game_rules.specs.declared.Side.TheVariants.{Black};
ghost use Rattle.plan_rules.specs.Rules.{specialbefore, is_shaped, is_twin};
ghost use Rattle.plan_rules.specs.Listing.{playable_squares, each_with, fitting, listed};
ghost use Rattle.plan_rules.specs.declared.Kind.TheVariants as kinds;

use crate::line::{has_each_above, is_chosen_within, is_low_line, is_low_where_free};
use arrayvec::ArrayVec;
use open_groups::{GroupId, free_for, group_mask};
use rule_law::{
    Kept, Kind, Listed, Mask, Position, Rule, Side, Size, Square, Taker, Way, list_pairs_beside,
};
use std::marker::Model;

/// No board has more: each of ten playable squares lies in at most twenty groups, and nine stand in other columns.
const MOST_SPECIALBEFORES: usize = 1800;

/// A line of Black's as a Before has it, with one playable square `e0` of the line, and a playable square `f` of another
/// column outside the line, of which White never owns both. The rule is a part of this project's own profile "after
/// Allis".
#[derive(Clone, Copy, PartialEq, Eq)]
pub struct Specialbefore {
    g: GroupId,
    f: Square,
    e0: Square,
}

impl Model for Specialbefore {
    ghost use Rattle.std.specs.Prelude.{◌≡◌, ℕ, true};
    ghost use Rattle.game_rules.specs.Squares.{widest_with};
    ghost use Rattle.game_rules.specs.Groups.{Group};
    ghost use Rattle.plan_rules.specs.Rules.{specialbefore, is_shaped};

    ghost Value = { Group × (ℕ × ℕ) × (ℕ × ℕ) };

    ghost view = { λ x. (x.g, x.f, x.e0) };

    ghost invariant = { λ x. is_shaped (specialbefore x.g x.f x.e0) (widest_with x.g.len) ≡ true };

    ghost inverse = { λ x. record { g = x.0; f = x.1; e0 = x.2 } };
}

impl Default for Specialbefore {
    ghost use Rattle.std.specs.Prelude.{◌≡◌};
    ghost use Rattle.game_rules.specs.declared.Way.TheVariants.{H};
    ghost use Rattle.game_rules.specs.declared.Length.TheVariants.{Four};

    ghost is_default = { λ x. x ≡ (record { anchor = (0, 1); way = H; len = Four }, (0, 2), (1, 1)) };

    /// That of the lowest level group of the first four columns, with a square above it and one of its own, which every
    /// board with lines of four has.
    fn default() -> Self {
        let corner = Square::default();
        Specialbefore {
            g: GroupId::default(),
            f: corner.step(Way::V, 1),
            e0: corner.step(Way::H, 1),
        }
    }
}

impl Specialbefore {
    /// The Specialbefore of this group and these squares; None exactly where the group is no line of the board, `f` is
    /// off the board or in the group, `e0` isn't in the group, or both stand in one column.
    pub fn new(size: Size, g: GroupId, f: Square, e0: Square) -> Option<Specialbefore>
        ensures { result ≡ (if is_shaped (specialbefore g f e0) size then Some (g, f, e0) else None) }
    {
        size.is_a_board();
        let squares = group_mask(g);
        let apart = f.column() != e0.column();
        if g.lies_on(size) && size.has(f) && !squares.has(f) && squares.has(e0) && apart {
            Some(Specialbefore { g, f, e0 })
        } else {
            None
        }
    }

    /// The group.
    pub fn g(&self) -> GroupId
        ensures value { result ≡ self.now.0 }
        ensures shaped { is_shaped (specialbefore self.now.0 self.now.1 self.now.2) (widest_with self.now.0.len) ≡ true }
    {
        self.g
    }

    /// The playable square outside the group.
    pub fn f(&self) -> Square
        ensures value { result ≡ self.now.1 }
        ensures shaped { is_shaped (specialbefore self.now.0 self.now.1 self.now.2) (widest_with self.now.0.len) ≡ true }
    {
        self.f
    }

    /// The playable square of the group.
    pub fn e0(&self) -> Square
        ensures value { result ≡ self.now.2 }
        ensures shaped { is_shaped (specialbefore self.now.0 self.now.1 self.now.2) (widest_with self.now.0.len) ≡ true }
    {
        self.e0
    }
}

impl Rule for Specialbefore {
    ghost use Rattle.std.specs.Prelude.{Some};
    ghost use Rattle.plan_rules.specs.Rules.{specialbefore, kind_of, zone_of, black_group_of, fits, reply_to, barred, is_supported, upper_of, pair_of, twin_of};
    ghost use Rattle.plan_rules.specs.Calm.{is_calm};
    ghost use Rattle.plan_rules.proofs.Specialbefore.{specialbefore_laws};

    ghost kind = { λ x. kind_of (specialbefore x.0 x.1 x.2) };

    ghost zone = { λ x. zone_of (specialbefore x.0 x.1 x.2) };

    ghost fitted = { λ x. fits (specialbefore x.0 x.1 x.2) };

    ghost reply = { λ x. reply_to (specialbefore x.0 x.1 x.2) };

    ghost bars = { λ x. barred (specialbefore x.0 x.1 x.2) };

    ghost supported = { λ x. is_supported (specialbefore x.0 x.1 x.2) };

    ghost upper = { λ x. upper_of (specialbefore x.0 x.1 x.2) };

    ghost pair = { λ x. pair_of (specialbefore x.0 x.1 x.2) };

    ghost twin = { λ x. twin_of (specialbefore x.0 x.1 x.2) };

    ghost calm = { λ x. is_calm (specialbefore x.0 x.1 x.2) };

    ghost line = { λ x. black_group_of (specialbefore x.0 x.1 x.2) };

    fn kind(&self) -> Kind {
        Kind::Specialbefore
    }

    fn zone(&self) -> Mask {
        Mask::empty()
    }

    #[tactic(auto, using(plan_rules::proofs::LineSites::specialbefore_fits))]
    fn fits(&self, p: &Position) -> bool {
        is_low_line(p, self.g()) && p.is_playable(self.f()) && p.is_playable(self.e0())
    }

    fn reply(&self, _now: &Position, _last: Square) -> Option<Square> {
        None
    }

    fn bars(&self, kept: &Kept, set: Mask) -> bool {
        set.has(self.f()) && has_each_above(self.g(), kept.empty, set)
    }

    fn is_supported(&self, kept: &Kept) -> bool {
        let held = kept.upper.union(kept.pair).with(self.e0());
        are_twins(kept.twin.as_slice(), self.f(), self.e0())
            && is_chosen_within(self.g(), kept.empty, held)
    }

    fn upper(&self) -> Mask {
        Mask::empty()
    }

    fn pair(&self) -> Mask {
        Mask::empty()
    }

    fn twin(&self) -> Option<(Square, Square)> {
        None
    }

    ghost starts = { λ x. (specialbefore_laws x.0 x.1 x.2).starts };

    ghost is_local = { λ x. (specialbefore_laws x.0 x.1 x.2).is_local };

    ghost steps = { λ x. (specialbefore_laws x.0 x.1 x.2).steps };

    ghost bar = { λ x. (specialbefore_laws x.0 x.1 x.2).bars };

    ghost keeps = { λ x. (specialbefore_laws x.0 x.1 x.2).keeps };
}

impl Listed for Specialbefore {
    ghost use Rattle.plan_rules.specs.Rules.{specialbefore, fits};

    type Site = (GroupId, (Square, Square));

    ghost instance = { λ x. specialbefore x.0 x.1 x.2 };

    ghost written = { λ x. specialbefore x.0 x.1.0 x.1.1 };

    ghost is_site = { λ p x. fits (specialbefore x.0 x.1.0 x.1.1) p };

    fn fitting_at(
        p: &Position,
        (g, (f, e0)): (GroupId, (Square, Square)),
    ) -> Option<Specialbefore> {
        p.has_a_board();
        Some(Specialbefore { g, f, e0 })
    }
}

/// All Specialbefores that fit at the position, by their groups in group order, then by `f` and then by `e0` in square
/// order.
pub fn list_specialbefore(p: &Position) -> ArrayVec<Specialbefore, MOST_SPECIALBEFORES>
    ensures { map (λ x. specialbefore x.0 x.1 x.2) result.items ≡ listed kinds.Specialbefore p.now }
{
    p.has_a_board();
    let mut list = ArrayVec::new();
    push_specialbefores(p, &mut list);
    list
}

/// Hands over all Specialbefores that fit at the position, in that order.
pub fn push_specialbefores<T: Taker<Specialbefore>>(p: &Position, taker: &mut T)
    requires { length (T.taken taker.old) + length (listed kinds.Specialbefore p.now) ≤ T.room taker.old }
    ensures taken { T.taken taker.new ≡ T.taken taker.old ++ listed kinds.Specialbefore p.now }
    ensures room { T.room taker.new ≡ T.room taker.old }
{
    let playables = Mask::of(p.playables().as_slice());
    let groups = free_for(p, Side::Black).groups();
    for g in groups.as_slice() {
        push_of_group(p, *g, playables, taker);
    }
}

/// Hands over those of one group that Black can still fill, given the set of the playable squares.
fn push_of_group<T: Taker<Specialbefore>>(p: &Position, g: GroupId, playables: Mask, taker: &mut T)
    requires free { (lies_on (board_of p.now) g && is_free_for Black p.now g) ≡ true }
    requires playables { IsSetOf (has_square (playable_squares p.now)) playables }
    requires room { length (T.taken taker.old) + length (fitting (λ two. specialbefore g two.0 two.1) p.now (each_with (playable_squares p.now) (playable_squares p.now))) ≤ T.room taker.old }
    ensures taken { T.taken taker.new ≡ T.taken taker.old ++ fitting (λ two. specialbefore g two.0 two.1) p.now (each_with (playable_squares p.now) (playable_squares p.now)) }
    ensures room { T.room taker.new ≡ T.room taker.old }
{
    p.has_a_board();
    let squares = group_mask(g);
    if is_low_where_free(p, g, squares) {
        let outside = playables.without(squares).squares();
        let inside = playables.intersection(squares).squares();
        list_pairs_beside(p, g, outside.as_slice(), inside.as_slice(), taker);
    }
}

/// Whether the two squares are twins, in either order.
fn are_twins(twins: &[(Square, Square)], u: Square, v: Square) -> bool
    ensures { result ≡ is_twin twins.now u v }
{
    for twin in twins {
        if are_both(*twin, u, v) {
            return true;
        }
    }
    false
}

/// Whether the twin has the two squares, in either order.
fn are_both(twin: (Square, Square), u: Square, v: Square) -> bool
    ensures { result ≡ ((same_square u twin.0 && same_square v twin.1) || (same_square u twin.1 && same_square v twin.0)) }
{
    (u == twin.0 && v == twin.1) || (u == twin.1 && v == twin.0)
}
