//! The first standing instance that answers a group that a full set of zones leaves, kind by kind.
ghost use Rattle.std.specs.Prelude.{◌≡◌, true};
ghost use Rattle.std.specs.List.{find};
ghost use Rattle.std.specs.Option.{option_map};
ghost use Rattle.game_rules.specs.Board.{Square as Place};
ghost use Rattle.game_rules.specs.Position.{board_of};
ghost use Rattle.game_rules.specs.Squares.{has_square, is_empty, IsSetOf};
ghost use Rattle.game_rules.specs.Groups.{groups_of};
ghost use Rattle.plan_rules.specs.Rules.{vertical, aftereven, before};
ghost use Rattle.plan_rules.specs.Listing.{squares_at};
ghost use Rattle.rule_law.specs.KeptFacts.{facts_in};
ghost use Rattle.rule_compat.specs.Written.{written};
ghost use Rattle.rule_chooser.specs.Ground.{IsGround};
ghost use Rattle.rule_chooser.specs.Standing.{does_answer, first_of, first_standing, is_open_within};

use crate::ground::Ground;
use crate::groups::OpenGroup;
use crate::special::first_specialbefore;
use board_bits::{Mask, Position};
use open_groups::GroupId;
use rule_compat::{Aftereven, Before, Instance, Vertical, squares_below};
use rule_law::Kept;

/// The first standing instance that fits at the position, is supported by what a set of zones keeps, and bars the empty
/// squares of a group.
pub(crate) fn first_answer(
    p: &Position,
    ground: &Ground,
    kept: &Kept,
    empty: Mask,
) -> Option<Instance>
    requires ground { IsGround p.now ground.now }
    requires kept { (u : Place) → has_square kept.now.empty u ≡ is_empty p.now u }
    requires part { (u : Place) → has_square empty u ≡ true → is_empty p.now u ≡ true }
    ensures { option_map written result ≡ first_standing p.now (facts_in kept.now) (has_square empty) }
{
    if let Some(rule) = first_vertical(p, kept, empty) {
        return Some(Instance::Vertical(rule));
    }
    if let Some(group) = first_aftereven(p, ground, kept, empty) {
        return Some(Instance::Aftereven(Aftereven::new(group)));
    }
    if let Some(group) = first_before(p, ground, kept, empty) {
        return Some(Instance::Before(Before::new(group)));
    }
    let rule = first_specialbefore(p, ground, kept, empty)?;
    Some(Instance::Specialbefore(rule))
}

/// The first Vertical, in square order, that answers the group: with both its squares in the group's empty part.
fn first_vertical(p: &Position, kept: &Kept, empty: Mask) -> Option<Vertical>
    requires { (u : Place) → has_square empty u ≡ true → is_empty p.now u ≡ true }
    ensures { result ≡ find (λ e. does_answer p.now (facts_in kept.now) (has_square empty) (vertical e)) (squares_at p.now) }
{
    // its contract says that the board is one with a size
    let size = p.size();
    let both = empty.intersection(empty.lowered());
    let squares = both.intersection(kept.pair).without(Mask::odd_rows());
    Vertical::new(size, squares.first()?)
}

/// The group of the first Aftereven, in group order, that answers the group.
fn first_aftereven(p: &Position, ground: &Ground, kept: &Kept, empty: Mask) -> Option<GroupId>
    requires ground { IsGround p.now ground.now }
    requires kept { (u : Place) → has_square kept.now.empty u ≡ is_empty p.now u }
    ensures { option_map aftereven result ≡ first_of p.now (facts_in kept.now) (has_square empty) aftereven (groups_of (board_of p.now)) }
{
    p.has_a_board();
    let squares = kept.upper.intersection(squares_below(empty));
    first_within(ground.black.as_slice(), squares)
}

/// The group of the first Before, in group order, that answers the group.
fn first_before(p: &Position, ground: &Ground, kept: &Kept, empty: Mask) -> Option<GroupId>
    requires ground { IsGround p.now ground.now }
    requires kept { (u : Place) → has_square kept.now.empty u ≡ is_empty p.now u }
    requires part { (u : Place) → has_square empty u ≡ true → is_empty p.now u ≡ true }
    ensures { option_map before result ≡ first_of p.now (facts_in kept.now) (has_square empty) before (groups_of (board_of p.now)) }
{
    p.has_a_board();
    let squares = kept.upper.union(kept.pair).intersection(empty.lowered());
    first_within(ground.black.as_slice(), squares)
}

/// The first of Black's groups that has an empty square, and of which the set has all empty squares.
fn first_within(groups: &[OpenGroup], set: Mask) -> Option<GroupId>
    ensures { result ≡ option_map (λ group. group.id) (find (is_open_within set) groups.now) }
{
    if set.is_empty() {
        return None;
    }
    for group in groups {
        if !group.empty.is_empty() && group.empty.within(set) {
            return Some(group.id);
        }
    }
    None
}
