//! The list of a small board as counted by hand, and an answer through the trait.
use crate::squares::{position_of, square_of};
use board_bits::{Position, Size};
use claimeven::{Claimeven, list_claimeven};
use rule_law::answer_at_start;
use std::test::Fail;

#[test]
fn claimevens_beside_one_man(rt: HostRuntime) -> Result<(), Fail> {
    let position = position_of(b"board 4 4\nmoves a\n")?;
    let list = list_claimeven(&position);
    let want = [(0, 3), (1, 1), (1, 3), (2, 1), (2, 3), (3, 1), (3, 3)];
    assert!(rt; list.len() == want.len());
    for ((index, row), found) in want.iter().zip(list.as_slice().iter()) {
        let lower = square_of(position.size(), *index, *row)?;
        assert!(rt; found.lower() == lower);
    }
    Ok(())
}

#[test]
fn a_lower_square_is_answered_by_the_upper(rt: HostRuntime) -> Result<(), Fail> {
    let position = Position::empty(Size::new(4, 4)?);
    let lower = square_of(position.size(), 2, 1)?;
    let upper = square_of(position.size(), 2, 2)?;
    let claimeven = Claimeven::new(position.size(), lower).ok_or("no Claimeven")?;
    if !position.is_playable(lower) {
        return Err("c1 is not playable".into());
    }
    assert!(rt; answer_at_start(&claimeven, &position, lower) == Some(upper));
    assert!(rt; Claimeven::new(position.size(), upper).is_none());
    Ok(())
}
