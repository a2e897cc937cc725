//! Answers through the trait, shapes that are refused, and lists as counted by hand.
use crate::squares::{Written, are_named, are_those, named, position_of};
use base_rules::{Baseclaim, Baseinverse, list_baseclaim, list_baseinverse};
use board_bits::{Position, Size};
use rule_law::answer_at_start;
use std::test::Fail;

/// The smallest board before the first move.
const EMPTY: &[u8] = b"board 4 4\nmoves -\n";

/// One man in the first and one in the third column, and the last one full.
const UNEVEN: &[u8] = b"board 4 4\nmoves daddcd\n";

/// Games, and by its squares each Baseinverse and each Baseclaim that fits.
const LISTS: &[(&[u8], &[&[u8]], &[&[u8]])] = &[
    (
        EMPTY,
        &[b"a1b1", b"a1c1", b"a1d1", b"b1c1", b"b1d1", b"c1d1"],
        &[],
    ),
    (
        UNEVEN,
        &[b"a2b1", b"a2c2", b"b1c2"],
        &[b"a2b1c2", b"c2b1a2"],
    ),
];

impl Written for Baseinverse {
    fn is_of(&self, names: &[u8]) -> bool {
        are_named(&[self.s(), self.t()], names)
    }
}

impl Written for Baseclaim {
    fn is_of(&self, names: &[u8]) -> bool {
        are_named(&[self.a(), self.b(), self.e()], names)
    }
}

#[test]
fn a_baseinverse_answers_a_square_by_the_other(rt: HostRuntime) -> Result<(), Fail> {
    let position = Position::empty(Size::new(4, 4)?);
    let b1 = named(position.size(), b"b1")?;
    let c1 = named(position.size(), b"c1")?;
    let baseinverse = Baseinverse::new(position.size(), b1, c1).ok_or("no Baseinverse")?;
    if !position.is_playable(c1) {
        return Err("c1 is not playable".into());
    }
    assert!(rt; answer_at_start(&baseinverse, &position, c1) == Some(b1));
    assert!(rt; Baseinverse::new(position.size(), c1, b1).is_none());
    Ok(())
}

#[test]
fn a_baseclaim_answers_its_first_square_by_its_third(rt: HostRuntime) -> Result<(), Fail> {
    let position = position_of(b"board 4 4\nmoves ac\n")?;
    let a2 = named(position.size(), b"a2")?;
    let b1 = named(position.size(), b"b1")?;
    let c2 = named(position.size(), b"c2")?;
    let baseclaim = Baseclaim::new(position.size(), a2, b1, c2).ok_or("no Baseclaim")?;
    if !position.is_playable(a2) {
        return Err("a2 is not playable".into());
    }
    assert!(rt; answer_at_start(&baseclaim, &position, a2) == Some(c2));
    assert!(rt; Baseclaim::new(position.size(), a2, c2, b1).is_none());
    Ok(())
}

#[test]
fn baseinverses_and_baseclaims_of_two_games(rt: HostRuntime) -> Result<(), Fail> {
    for (game, baseinverses, baseclaims) in LISTS {
        let p = position_of(game)?;
        assert!(rt; are_those(list_baseinverse(&p).as_slice(), baseinverses));
        assert!(rt; are_those(list_baseclaim(&p).as_slice(), baseclaims));
    }
    Ok(())
}
