//! The first Specialbefore that answers a group. One of its squares is a twin's and lies in the group, so most groups are
//! settled without a look at Black's.
ghost use Rattle.std.specs.Prelude.{◌≡◌, ◌&&◌, if◌then◌else◌, Some, None};
ghost use Rattle.std.specs.Option.{option_map};
ghost use Rattle.game_rules.specs.Board.{Square as Place};
ghost use Rattle.game_rules.specs.Squares.{has_square, is_empty, IsSetOf};
ghost use Rattle.plan_rules.specs.Rules.{specialbefore};
ghost use Rattle.plan_rules.specs.Listing.{playable_squares, each_with};
ghost use Rattle.rule_law.specs.KeptFacts.{facts_in};
ghost use Rattle.rule_chooser.specs.Ground.{IsGround};
ghost use Rattle.rule_chooser.specs.OpenGroups.{open_group_at};
ghost use Rattle.rule_chooser.specs.Standing.{does_answer, first_of, first_special, is_of_twin, is_outside};

use crate::ground::Ground;
use crate::groups::OpenGroup;
use board_bits::{Mask, Position, Square};
use open_groups::GroupId;
use rule_compat::Specialbefore;
use rule_law::{Kept, Rule};

/// The first Specialbefore, by its group, then by `f` and then by `e0`, that fits at the position, is supported and bars
/// the empty squares of a group.
pub(crate) fn first_specialbefore(
    p: &Position,
    ground: &Ground,
    kept: &Kept,
    empty: Mask,
) -> Option<Specialbefore>
    requires ground { IsGround p.now ground.now }
    requires kept { (u : Place) → has_square kept.now.empty u ≡ is_empty p.now u }
    ensures { option_map (λ x. specialbefore x.0 x.1 x.2) result ≡ first_special p.now (facts_in kept.now) (has_square empty) }
{
    p.has_a_board();
    let outside = ground
        .playable
        .intersection(twin_squares(kept))
        .intersection(empty);
    if outside.is_empty() {
        return None;
    }
    for group in ground.black.as_slice() {
        let found = special_of(p, group, outside, ground.playable, kept, empty);
        if found.is_some() {
            return found;
        }
    }
    None
}

/// The squares of all twins.
fn twin_squares(kept: &Kept) -> Mask
    ensures { IsSetOf (is_of_twin kept.now.twin.items) result }
{
    let mut squares = Mask::empty();
    for twin in kept.twin.as_slice() {
        squares = squares.with(twin.0).with(twin.1);
    }
    squares
}

/// The first of one group of Black's, given the playable squares, and those of them that are a twin's and in the group that
/// is to be answered.
fn special_of(
    p: &Position,
    group: &OpenGroup,
    outside: Mask,
    playable: Mask,
    kept: &Kept,
    empty: Mask,
) -> Option<Specialbefore>
    requires group { group.now ≡ open_group_at p.now group.now.id }
    requires kept { (u : Place) → has_square kept.now.empty u ≡ is_empty p.now u }
    requires playable { IsSetOf (has_square (playable_squares p.now)) playable }
    requires outside { IsSetOf (is_outside p.now (facts_in kept.now) (has_square empty)) outside }
    ensures { option_map (λ x. specialbefore x.0 x.1 x.2) result ≡ first_of p.now (facts_in kept.now) (has_square empty) (λ two. specialbefore group.now.id two.0 two.1) (each_with (playable_squares p.now) (playable_squares p.now)) }
{
    p.has_a_board();
    if !group.empty.within(empty.lowered()) {
        return None;
    }
    special_among(
        p,
        group.id,
        outside,
        playable.intersection(group.empty),
        kept,
        empty,
    )
}

/// The first of one group, with `f` and `e0` among some squares.
fn special_among(
    p: &Position,
    group: GroupId,
    outside: Mask,
    inside: Mask,
    kept: &Kept,
    empty: Mask,
) -> Option<Specialbefore>
    ensures { option_map (λ x. specialbefore x.0 x.1 x.2) result ≡ first_of p.now (facts_in kept.now) (has_square empty) (λ two. specialbefore group two.0 two.1) (each_with outside inside) }
{
    for f in outside.squares().as_slice() {
        let found = special_with(p, group, *f, inside, kept, empty);
        if found.is_some() {
            return found;
        }
    }
    None
}

/// The first of one group and one `f`, with `e0` among some squares.
fn special_with(
    p: &Position,
    group: GroupId,
    f: Square,
    inside: Mask,
    kept: &Kept,
    empty: Mask,
) -> Option<Specialbefore>
    ensures { option_map (λ x. specialbefore x.0 x.1 x.2) result ≡ first_of p.now (facts_in kept.now) (has_square empty) (λ e0. specialbefore group f e0) inside }
{
    for e0 in inside.squares().as_slice() {
        let found = special_at(p, group, f, *e0, kept, empty);
        if found.is_some() {
            return found;
        }
    }
    None
}

/// The one of a group and two squares, where it answers the group.
fn special_at(
    p: &Position,
    group: GroupId,
    f: Square,
    e0: Square,
    kept: &Kept,
    empty: Mask,
) -> Option<Specialbefore>
    ensures { option_map (λ x. specialbefore x.0 x.1 x.2) result ≡ (if does_answer p.now (facts_in kept.now) (has_square empty) (specialbefore group f e0) then Some (specialbefore group f e0) else None) }
{
    let rule = Specialbefore::new(p.size(), group, f, e0)?;
    if does_answer(p, &rule, kept, empty) {
        Some(rule)
    } else {
        None
    }
}

/// Whether a Specialbefore fits, is supported and bars the squares.
fn does_answer(p: &Position, rule: &Specialbefore, kept: &Kept, empty: Mask) -> bool
    ensures { result ≡ does_answer p.now (facts_in kept.now) (has_square empty) (specialbefore rule.now.0 rule.now.1 rule.now.2) }
{
    rule.fits(p) && rule.is_supported(kept) && rule.bars(kept, empty)
}
