//! The lists of small boards as counted by hand, and calls through the trait.
use crate::squares::{group_of, position_of, square_of};
use arrayvec::ArrayVec;
use board_bits::{Mask, Position, Size};
use group_rules::{
    Aftereven, Before, Specialbefore, list_aftereven, list_before, list_specialbefore,
};
use open_groups::{GroupId, Way, group_mask};
use rule_law::{Kept, Kind, Rule};
use std::test::Fail;

/// What a rule says of itself where nothing is kept: its kind, whether it fits, and whether it is supported.
fn asked<R: Rule>(rule: &R, p: &Position) -> (Kind, bool, bool) {
    let kept = Kept {
        empty: p.empties(),
        upper: Mask::empty(),
        pair: Mask::empty(),
        twin: ArrayVec::new(),
    };
    (rule.kind(), rule.fits(p), rule.is_supported(&kept))
}

#[test]
fn lines_on_an_empty_board(rt: HostRuntime) -> Result<(), Fail> {
    let small = Position::empty(Size::new(4, 4)?);
    assert!(rt; list_aftereven(&small).len() == 10);
    assert!(rt; list_specialbefore(&small).len() == 0);
    let befores = list_before(&small);
    assert!(rt; befores.len() == 3);
    for (row, before) in [1u8, 2, 3].iter().zip(befores.as_slice().iter()) {
        let level = group_of(small.size(), 0, *row, Way::H)?;
        assert!(rt; before.g() == level);
    }
    Ok(())
}

/// A position where one rising line is left, with that line, and its Specialbefore.
fn with_one_line() -> Result<(Position, GroupId, Specialbefore), Fail> {
    let position = position_of(b"board 5 4\nmoves abbaabbaddceedee\n")?;
    let size = position.size();
    let rising = group_of(size, 1, 1, Way::U)?;
    let d4 = square_of(size, 3, 4)?;
    let c2 = square_of(size, 2, 2)?;
    if Specialbefore::new(size, rising, c2, d4).is_some() {
        return Err("a Specialbefore with its squares exchanged".into());
    }
    let special = Specialbefore::new(size, rising, d4, c2).ok_or("no Specialbefore")?;
    Ok((position, rising, special))
}

#[test]
fn one_rising_line_is_left(rt: HostRuntime) -> Result<(), Fail> {
    let (position, rising, special) = with_one_line()?;
    assert!(rt; list_aftereven(&position).as_slice() == [Aftereven::new(rising)].as_slice());
    assert!(rt; list_before(&position).as_slice() == [Before::new(rising)].as_slice());
    assert!(rt; list_specialbefore(&position).as_slice() == [special].as_slice());
    Ok(())
}

#[test]
fn each_rule_through_the_trait(rt: HostRuntime) -> Result<(), Fail> {
    let (position, rising, special) = with_one_line()?;
    assert!(rt; asked(&Aftereven::new(rising), &position) == (Kind::Aftereven, true, false));
    assert!(rt; asked(&Before::new(rising), &position) == (Kind::Before, true, false));
    assert!(rt; asked(&special, &position) == (Kind::Specialbefore, true, false));
    assert!(rt; group_mask(special.g()).has(special.e0()));
    assert!(rt; !group_mask(special.g()).has(special.f()));
    Ok(())
}
