//! The table of instances that may stand together, over the sets of squares that they own. Two that share no column
//! always may; so most pairs are settled by the columns alone.
ghost use Rattle.std.specs.Prelude.{◌≡◌};
ghost use Rattle.game_rules.specs.Squares.{same_square, has_square, IsSetOf};
ghost use Rattle.plan_rules.specs.Squares.{above};
ghost use Rattle.plan_rules.specs.Rules.{zone_of, rests_on, stands_over, together};
ghost use Rattle.rule_compat.specs.Written.{written};
ghost use Rattle.board_squares.specs.WholeColumns.{in_columns_of};

use crate::Instance;
use group_rules::{Mask, Rule, Square};

/// Whether two instances may stand together in a plan; the same in both orders. A standing rule may stand with every
/// instance. Two zones may not share a square; where they share a column, a Claimeven has to be above the other zone in
/// it, or an inverse directly on a Baseinverse of its two columns.
pub fn may_stand(a: &Instance, b: &Instance) -> bool
    ensures { result ≡ together (written a.now) (written b.now) }
{
    let a_zone = a.zone();
    zones_may_stand(a, &a_zone, &a_zone.columns(), b, &b.zone())
}

/// The same, of instances with the sets of squares that they own, and the whole columns of the first one.
pub(crate) fn zones_may_stand(
    a: &Instance,
    a_zone: &Mask,
    a_columns: &Mask,
    b: &Instance,
    b_zone: &Mask,
) -> bool
    requires a_owns { IsSetOf (has_square (zone_of (written a.now))) a_zone.now }
    requires a_columns { IsSetOf (in_columns_of a_zone.now) a_columns.now }
    requires b_owns { IsSetOf (has_square (zone_of (written b.now))) b_zone.now }
    ensures { result ≡ together (written a.now) (written b.now) }
{
    if !a_columns.meets(*b_zone) {
        return true;
    }
    if a_zone.meets(*b_zone) {
        return false;
    }
    stands_over(a, b, b_zone) || stands_over(b, a, a_zone)
}

/// Whether the one instance may stand over the other, whose squares are given, where they share a column.
fn stands_over(upper: &Instance, lower: &Instance, zone: &Mask) -> bool
    requires { IsSetOf (has_square (zone_of (written lower.now))) zone.now }
    ensures { result ≡ stands_over (written upper.now) (written lower.now) }
{
    match upper {
        Instance::Claimeven(rule) => !Mask::upwards(rule.lower()).meets(*zone),
        Instance::Lowinverse(rule) => rests_on(rule.x(), rule.y(), lower),
        Instance::Highinverse(rule) => rests_on(rule.x(), rule.y(), lower),
        _ => false,
    }
}

/// Whether the other instance is a Baseinverse directly below the two squares.
fn rests_on(x: Square, y: Square, lower: &Instance) -> bool
    ensures { result ≡ rests_on x y (written lower.now) }
{
    match lower {
        Instance::Baseinverse(rule) => is_just_below(rule.s(), x) && is_just_below(rule.t(), y),
        _ => false,
    }
}

/// Whether the second square is the one above the first.
fn is_just_below(u: Square, x: Square) -> bool
    ensures { result ≡ same_square (above u) x }
{
    u.column() == x.column() && u.row() + 1 == x.row()
}
