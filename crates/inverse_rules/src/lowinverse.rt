//! The type of Lowinverses, its calls as a rule, and the list of those that fit.
ghost use Rattle.std.specs.Prelude.{◌≡◌, ◌+◌, ◌≤◌, ◌&&◌, ◌++◌, true, map, filter, length, Some, None, if◌then◌else◌};
ghost use Rattle.std.specs.List.{list_any, flat_map};
ghost use Rattle.game_rules.specs.Board.{on_board};
ghost use Rattle.game_rules.specs.Squares.{has_square, widest, IsSetOf};
ghost use Rattle.plan_rules.specs.Squares.{above, is_odd, span};
ghost use Rattle.plan_rules.specs.Rules.{lowinverse, is_low_column, is_shaped, low_reply};
ghost use Rattle.plan_rules.specs.Listing.{squares_at, is_bottom, tops_over, listed};
ghost use Rattle.plan_rules.specs.declared.Kind.TheVariants as kinds;

use crate::ground::{bottoms, is_common_ground, is_grounded};
use arrayvec::ArrayVec;
use rule_law::{
    Kept, Kind, Listed, MOST_COLS, Mask, Position, Rule, Size, Square, Taker, Way, list_pairs,
};
use std::marker::Model;

/// No column has more tops over one bottom.
const MOST_TOPS: usize = 4;

/// No board has more columns with a top each.
const MOST_TOPPED_COLUMNS: usize = MOST_COLS * MOST_TOPS;

/// No board has more pairs of columns with four tops in each.
const MOST_LOWINVERSES: usize = 720;

/// The bottom and the top of two columns of squares, the first further left. All four stand on even rows, and a top at
/// least two rows above its bottom. The rule is a part of this project's own profile "after Allis".
#[derive(Clone, Copy, PartialEq, Eq)]
pub struct Lowinverse {
    x: Square,
    x_top: Square,
    y: Square,
    y_top: Square,
}

impl Model for Lowinverse {
    ghost use Rattle.std.specs.Prelude.{◌≡◌, ℕ, true};
    ghost use Rattle.game_rules.specs.Squares.{widest};
    ghost use Rattle.plan_rules.specs.Rules.{lowinverse, is_shaped};

    ghost Value = { (ℕ × ℕ) × (ℕ × ℕ) × (ℕ × ℕ) × (ℕ × ℕ) };

    ghost view = { λ a. (a.x, a.x_top, a.y, a.y_top) };

    ghost invariant = { λ a. is_shaped (lowinverse a.x a.x_top a.y a.y_top) widest ≡ true };

    ghost inverse = { λ v. record { x = v.0; x_top = v.1; y = v.2; y_top = v.3 } };
}

impl Default for Lowinverse {
    ghost use Rattle.std.specs.Prelude.{◌≡◌};

    ghost is_default = { λ l. l ≡ ((0, 2), (0, 4), (1, 2), (1, 4)) };

    /// The lowest one of the first two columns, which every board has.
    fn default() -> Self {
        let x = Square::default().step(Way::V, 1);
        let y = x.step(Way::H, 1);
        Lowinverse {
            x,
            x_top: x.step(Way::V, 2),
            y,
            y_top: y.step(Way::V, 2),
        }
    }
}

impl Lowinverse {
    /// The Lowinverse of these two columns; None exactly where one of the four squares is off the board or on an odd row,
    /// a bottom and its top stand in two columns, a top stands less than two rows above its bottom, or the column of `x`
    /// isn't left of that of `y`.
    #[tactic(auto, using(plan_rules::proofs::Spans::lowinverse_shaped))]
    pub fn new(size: Size, x: Square, x_top: Square, y: Square, y_top: Square) -> Option<Lowinverse>
        ensures value { result ≡ (if is_shaped (lowinverse x x_top y y_top) size then Some (x, x_top, y, y_top) else None) }
    {
        size.is_a_board();
        let ordered = x.column().index() < y.column().index();
        if ordered && is_column(size, x, x_top) && is_column(size, y, y_top) {
            Some(Lowinverse { x, x_top, y, y_top })
        } else {
            None
        }
    }

    /// The bottom of the column further left.
    pub fn x(&self) -> Square
        ensures value { result ≡ self.now.0 }
        ensures shaped { is_shaped (lowinverse self.now.0 self.now.1 self.now.2 self.now.3) widest ≡ true }
    {
        self.x
    }

    /// The top of the column further left.
    pub fn x_top(&self) -> Square
        ensures value { result ≡ self.now.1 }
        ensures shaped { is_shaped (lowinverse self.now.0 self.now.1 self.now.2 self.now.3) widest ≡ true }
    {
        self.x_top
    }

    /// The bottom of the column further right.
    pub fn y(&self) -> Square
        ensures value { result ≡ self.now.2 }
        ensures shaped { is_shaped (lowinverse self.now.0 self.now.1 self.now.2 self.now.3) widest ≡ true }
    {
        self.y
    }

    /// The top of the column further right.
    pub fn y_top(&self) -> Square
        ensures value { result ≡ self.now.3 }
        ensures shaped { is_shaped (lowinverse self.now.0 self.now.1 self.now.2 self.now.3) widest ≡ true }
    {
        self.y_top
    }

    /// The column further left.
    fn x_column(&self) -> Mask
        ensures { IsSetOf (has_square (span self.now.0 self.now.1)) result }
    {
        column_of(self.x(), self.x_top())
    }

    /// The column further right.
    fn y_column(&self) -> Mask
        ensures { IsSetOf (has_square (span self.now.2 self.now.3)) result }
    {
        column_of(self.y(), self.y_top())
    }

    /// Whether the set has an odd-row square of each column.
    fn bars_across(&self, set: Mask) -> bool
        ensures { result ≡ (
            list_any (λ u. is_odd u.1 && has_square set u) (span self.now.0 self.now.1)
            && list_any (λ u. is_odd u.1 && has_square set u) (span self.now.2 self.now.3)
            ) }
    {
        let odd = set.intersection(Mask::odd_rows());
        self.x_column().meets(odd) && self.y_column().meets(odd)
    }

    /// Whether the set has an odd-row square of the zone and the square above it.
    fn bars_upwards(&self, set: Mask) -> bool
        ensures { result ≡ list_any
            (λ u. is_odd u.1 && has_square set u && has_square set (above u))
            (span self.now.0 self.now.1 ++ span self.now.2 self.now.3) }
    {
        let odd = set.intersection(Mask::odd_rows());
        self.zone().meets(odd.intersection(set.lowered()))
    }
}

impl Rule for Lowinverse {
    ghost use Rattle.std.specs.Prelude.{None};
    ghost use Rattle.plan_rules.specs.Rules.{lowinverse, kind_of, zone_of, fits, reply_to, barred, is_supported, upper_of, pair_of, twin_of};
    ghost use Rattle.plan_rules.specs.Calm.{is_calm};
    ghost use Rattle.plan_rules.proofs.Lowinverse.{lowinverse_laws};

    ghost kind = { λ x. kind_of (lowinverse x.0 x.1 x.2 x.3) };

    ghost zone = { λ x. zone_of (lowinverse x.0 x.1 x.2 x.3) };

    ghost fitted = { λ x. fits (lowinverse x.0 x.1 x.2 x.3) };

    ghost reply = { λ x. reply_to (lowinverse x.0 x.1 x.2 x.3) };

    ghost bars = { λ x. barred (lowinverse x.0 x.1 x.2 x.3) };

    ghost supported = { λ x. is_supported (lowinverse x.0 x.1 x.2 x.3) };

    ghost upper = { λ x. upper_of (lowinverse x.0 x.1 x.2 x.3) };

    ghost pair = { λ x. pair_of (lowinverse x.0 x.1 x.2 x.3) };

    ghost twin = { λ x. twin_of (lowinverse x.0 x.1 x.2 x.3) };

    ghost calm = { λ x. is_calm (lowinverse x.0 x.1 x.2 x.3) };

    ghost line = { λ x. None };

    fn kind(&self) -> Kind {
        Kind::Lowinverse
    }

    fn zone(&self) -> Mask {
        self.x_column().union(self.y_column())
    }

    #[tactic(auto, using(plan_rules::proofs::Fits::lowinverse_fits))]
    fn fits(&self, p: &Position) -> bool {
        // on its ground a column has no man, so its squares are empty where its top is on the board
        p.size().has(self.x_top())
            && p.size().has(self.y_top())
            && is_grounded(p, self.x(), self.y())
    }

    fn reply(&self, now: &Position, last: Square) -> Option<Square> {
        if self.x_column().has(last) {
            answer(self.x_top(), self.y(), now, last)
        } else if self.y_column().has(last) {
            answer(self.y_top(), self.x(), now, last)
        } else {
            None
        }
    }

    fn bars(&self, _kept: &Kept, set: Mask) -> bool {
        let tops = set.has(self.x_top()) && set.has(self.y_top());
        tops || self.bars_across(set) || self.bars_upwards(set)
    }

    fn is_supported(&self, _kept: &Kept) -> bool {
        true
    }

    fn upper(&self) -> Mask {
        Mask::empty()
    }

    fn pair(&self) -> Mask {
        // its contract says that the rule has its shape, in which each square but the tops stands under another
        let _shape = self.x();
        let zone = self.zone();
        zone.intersection(zone.lowered())
    }

    fn twin(&self) -> Option<(Square, Square)> {
        None
    }

    ghost starts = { λ x. (lowinverse_laws x.0 x.1 x.2 x.3).starts };

    ghost is_local = { λ x. (lowinverse_laws x.0 x.1 x.2 x.3).is_local };

    ghost steps = { λ x. (lowinverse_laws x.0 x.1 x.2 x.3).steps };

    ghost bar = { λ x. (lowinverse_laws x.0 x.1 x.2 x.3).bars };

    ghost keeps = { λ x. (lowinverse_laws x.0 x.1 x.2 x.3).keeps };
}

impl Listed for Lowinverse {
    ghost use Rattle.std.specs.Prelude.{◌&&◌};
    ghost use Rattle.plan_rules.specs.Rules.{lowinverse};
    ghost use Rattle.plan_rules.specs.Listing.{is_column_over};

    type Site = ((Square, Square), (Square, Square));

    ghost instance = { λ x. lowinverse x.0 x.1 x.2 x.3 };

    ghost written = { λ x. lowinverse x.0.0 x.0.1 x.1.0 x.1.1 };

    ghost is_site = { λ p x. is_column_over p x.0 && is_column_over p x.1 };

    fn fitting_at(
        p: &Position,
        ((x, x_top), (y, y_top)): ((Square, Square), (Square, Square)),
    ) -> Option<Lowinverse> {
        p.has_a_board();
        if x.column().index() < y.column().index() && is_common_ground(p, x, y) {
            Some(Lowinverse { x, x_top, y, y_top })
        } else {
            None
        }
    }
}

/// All Lowinverses that fit at the position: by `x`, by its top, by `y` and by the top of that, in square order.
pub fn list_lowinverse(p: &Position) -> ArrayVec<Lowinverse, MOST_LOWINVERSES>
    ensures { map (λ x. lowinverse x.0 x.1 x.2 x.3) result.items ≡ listed kinds.Lowinverse p.now }
{
    p.has_a_board();
    let mut list = ArrayVec::new();
    push_lowinverses(p, &mut list);
    list
}

/// Hands over all Lowinverses that fit at the position, in that order.
pub fn push_lowinverses<T: Taker<Lowinverse>>(p: &Position, taker: &mut T)
    requires { length (T.taken taker.old) + length (listed kinds.Lowinverse p.now) ≤ T.room taker.old }
    ensures taken { T.taken taker.new ≡ T.taken taker.old ++ listed kinds.Lowinverse p.now }
    ensures room { T.room taker.new ≡ T.room taker.old }
{
    let columns = columns_over_bottoms(p);
    list_pairs(p, columns.as_slice(), columns.as_slice(), taker);
}

/// The bottom and the top of each column of the board that a Lowinverse can own where it stands on its ground: by the
/// bottom, and then by the top.
fn columns_over_bottoms(p: &Position) -> ArrayVec<(Square, Square), MOST_TOPPED_COLUMNS>
    ensures { result.items ≡ flat_map (tops_over p.now) (filter (is_bottom p.now) (squares_at p.now)) }
{
    let bottoms = bottoms(p);
    let mut columns = ArrayVec::new();
    for bottom in bottoms.as_slice() {
        push_columns_over(p, *bottom, &mut columns);
    }
    columns
}

/// Puts the columns over one bottom behind the others.
fn push_columns_over(
    p: &Position,
    bottom: Square,
    columns: &mut ArrayVec<(Square, Square), MOST_TOPPED_COLUMNS>,
)
    requires bottom { is_bottom p.now bottom ≡ true }
    requires room { length columns.old.items + 4 ≤ 40 }
    ensures items { columns.new.items ≡ columns.old.items ++ tops_over p.now bottom }
    ensures most { length columns.new.items ≤ length columns.old.items + 4 }
{
    let size = p.size();
    let mut top = bottom;
    while top.row() < size.rows() {
        top = top.step(Way::V, 2);
        columns.push((bottom, top));
    }
}

/// A column of squares from the bottom up to the top.
fn column_of(bottom: Square, top: Square) -> Mask
    ensures { IsSetOf (has_square (span bottom top)) result }
{
    Mask::column_part(bottom, top)
}

/// Whether the two squares are the bottom and the top of a column that a Lowinverse may own.
fn is_column(size: Size, bottom: Square, top: Square) -> bool
    ensures { result ≡ (on_board size bottom && on_board size top && is_low_column bottom top) }
{
    let on_board = size.has(bottom) && size.has(top);
    let even = bottom.row() % 2 == 0 && top.row() % 2 == 0;
    on_board && bottom.column() == top.column() && even && bottom.row() + 2 <= top.row()
}

/// The answer to a move in the column up to this top, beside the column of another square.
fn answer(top: Square, beside: Square, now: &Position, last: Square) -> Option<Square>
    requires column { last.0 ≡ top.0 }
    requires row { last.1 ≤ top.1 }
    ensures { result ≡ low_reply top beside now.now last }
{
    if last == top {
        now.playable(beside.column())
    } else {
        // its contract says that no top is higher than the tenth row
        let _row = top.row();
        Some(last.step(Way::V, 1))
    }
}
