//! Answers through the trait, shapes that are refused, and lists as counted by hand.
use crate::squares::{Written, are_named, are_those, named, position_of};
use board_bits::{Position, Size, Square};
use inverse_rules::{
    Highinverse, Lowinverse, Vertical, list_highinverse, list_lowinverse, list_vertical,
};
use rule_law::{Rule, answer_at_start};
use std::test::Fail;

/// A board of six rows with a man in each of the first two columns.
const GROUND: &[u8] = b"board 4 6\nmoves ab\n";

/// The smallest board before the first move.
const EMPTY: &[u8] = b"board 4 4\nmoves -\n";

/// One man in the first and one in the third column, and the last one full.
const UNEVEN: &[u8] = b"board 4 4\nmoves daddcd\n";

/// Games, and by its squares each Lowinverse, each Highinverse and each Vertical that fits.
const LISTS: &[(&[u8], &[&[u8]], &[&[u8]], &[&[u8]])] = &[
    (
        EMPTY,
        &[
            b"a2a4b2b4",
            b"a2a4c2c4",
            b"a2a4d2d4",
            b"b2b4c2c4",
            b"b2b4d2d4",
            b"c2c4d2d4",
        ],
        &[b"a2b2", b"a2c2", b"a2d2", b"b2c2", b"b2d2", b"c2d2"],
        &[b"a2", b"b2", b"c2", b"d2"],
    ),
    (UNEVEN, &[b"a2a4c2c4"], &[b"a2c2"], &[b"a2", b"b2", b"c2"]),
];

impl Written for Lowinverse {
    fn is_of(&self, names: &[u8]) -> bool {
        let squares = [self.x(), self.x_top(), self.y(), self.y_top()];
        are_named(&squares, names)
    }
}

impl Written for Highinverse {
    fn is_of(&self, names: &[u8]) -> bool {
        are_named(&[self.x(), self.y()], names)
    }
}

impl Written for Vertical {
    fn is_of(&self, names: &[u8]) -> bool {
        are_named(&[self.e()], names)
    }
}

/// The answer to a move to the second square of the first column, if the rule fits.
fn answer_at_a2<R: Rule>(rule: &R, position: &Position) -> Result<Option<Square>, Fail> {
    let a2 = named(position.size(), b"a2")?;
    if !rule.fits(position) || !position.is_playable(a2) {
        return Err("no fit".into());
    }
    Ok(answer_at_start(rule, position, a2))
}

#[test]
fn a_lowinverse_answers_a_bottom_by_the_square_above(rt: HostRuntime) -> Result<(), Fail> {
    let position = position_of(GROUND)?;
    let a2 = named(position.size(), b"a2")?;
    let a4 = named(position.size(), b"a4")?;
    let b2 = named(position.size(), b"b2")?;
    let b6 = named(position.size(), b"b6")?;
    let lowinverse = Lowinverse::new(position.size(), a2, a4, b2, b6).ok_or("no Lowinverse")?;
    assert!(rt; answer_at_a2(&lowinverse, &position)? == Some(named(position.size(), b"a3")?));
    assert!(rt; Lowinverse::new(position.size(), a2, b6, b2, a4).is_none());
    Ok(())
}

#[test]
fn a_highinverse_answers_a_bottom_by_its_middle(rt: HostRuntime) -> Result<(), Fail> {
    let position = position_of(GROUND)?;
    let a2 = named(position.size(), b"a2")?;
    let b2 = named(position.size(), b"b2")?;
    let highinverse = Highinverse::new(position.size(), a2, b2).ok_or("no Highinverse")?;
    assert!(rt; answer_at_a2(&highinverse, &position)? == Some(named(position.size(), b"a3")?));
    assert!(rt; Highinverse::new(position.size(), b2, a2).is_none());
    Ok(())
}

#[test]
fn a_vertical_answers_nothing(rt: HostRuntime) -> Result<(), Fail> {
    let position = position_of(GROUND)?;
    let a2 = named(position.size(), b"a2")?;
    let a6 = named(position.size(), b"a6")?;
    let vertical = Vertical::new(position.size(), a2).ok_or("no Vertical")?;
    assert!(rt; answer_at_a2(&vertical, &position)?.is_none());
    assert!(rt; Vertical::new(position.size(), a6).is_none());
    Ok(())
}

#[test]
fn lowinverses_highinverses_and_verticals_of_two_games(rt: HostRuntime) -> Result<(), Fail> {
    for (game, lowinverses, highinverses, verticals) in LISTS {
        let p = position_of(game)?;
        assert!(rt; are_those(list_lowinverse(&p).as_slice(), lowinverses));
        assert!(rt; are_those(list_highinverse(&p).as_slice(), highinverses));
        assert!(rt; are_those(list_vertical(&p).as_slice(), verticals));
    }
    Ok(())
}
