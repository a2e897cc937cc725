//! The facts that the zone rules of a list promise to its standing rules. Each call asks one thing of every member.
ghost use Rattle.std.specs.Prelude.{◌≡◌};
ghost use Rattle.std.specs.List.{flat_map};
ghost use Rattle.game_rules.specs.Squares.{has_square, IsSetOf};
ghost use Rattle.plan_rules.specs.Rules.{upper_of, pair_of, facts_of};
ghost use Rattle.plan_rules.specs.Refusal.{StandTogether};
ghost use Rattle.group_rules.specs.KeptFacts.{facts_in};
ghost use Rattle.rule_compat.specs.Written.{written_list};

use crate::Instance;
use arrayvec::ArrayVec;
use group_rules::{Kept, Mask, Position, Rule, Square};

/// How many pairs of twins there is room for in what is kept.
const MOST_TWINS: usize = 5;

/// What the members of a list promise at the position, where each fits and each two may stand together: so no more than
/// five of them name twins.
pub fn facts_kept(p: &Position, list: &[Instance]) -> Kept
    requires { StandTogether p.now (written_list list.now) }
    ensures { facts_in result ≡ facts_of p.now (written_list list.now) }
{
    Kept {
        empty: p.empties(),
        upper: uppers(list),
        pair: pairs(list),
        twin: twins(p, list),
    }
}

/// The upper squares of the Claimevens.
fn uppers(list: &[Instance]) -> Mask
    ensures { IsSetOf (has_square (flat_map upper_of (written_list list.now))) result }
{
    let mut squares = Mask::empty();
    for instance in list {
        squares = squares.union(instance.upper());
    }
    squares
}

/// The squares of Lowinverses and Highinverses of which White never owns one together with the square above it.
fn pairs(list: &[Instance]) -> Mask
    ensures { IsSetOf (has_square (flat_map pair_of (written_list list.now))) result }
{
    let mut squares = Mask::empty();
    for instance in list {
        squares = squares.union(instance.pair());
    }
    squares
}

/// The two squares of each Baseinverse.
fn twins(p: &Position, list: &[Instance]) -> ArrayVec<(Square, Square), MOST_TWINS>
    requires { StandTogether p.now (written_list list.now) }
    ensures { result.items ≡ (facts_of p.now (written_list list.now)).twin }
{
    p.has_a_board();
    let mut twins = ArrayVec::new();
    for instance in list {
        if let Some(twin) = instance.twin() {
            twins.push(twin);
        }
    }
    twins
}
