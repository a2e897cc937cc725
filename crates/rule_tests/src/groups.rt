//! How many groups a board has, and which of them a man takes from the other side, as counted by hand.
use crate::squares::{group_of, position_of, square_of};
use board_bits::{Mask, Position, Side, Size, Square};
use game_rules::Way;
use open_groups::{GroupId, GroupSet, free_for, group_mask, groups};
use std::test::Fail;

/// The set without a square.
fn without(mask: Mask, square: Square) -> Mask {
    mask.without(Mask::of(&[square]))
}

fn count_in(set: &GroupSet, list: &[GroupId]) -> usize {
    list.iter().filter(|group| set.has(**group)).count()
}

#[test]
fn boards_have_their_groups(rt: HostRuntime) -> Result<(), Fail> {
    for (cols, rows, len, want) in [
        (4, 4, 4, 10),
        (7, 6, 4, 69),
        (10, 10, 4, 238),
        (4, 4, 5, 0),
        (7, 6, 5, 44),
        (10, 10, 5, 192),
    ] {
        let size = Size::with_line(cols, rows, len)?;
        let groups = groups(size);
        assert!(rt;
            groups.len() == want,
            "at {cols} by {rows} with lines of {len}"
        );
        for group in groups.as_slice() {
            assert!(rt; group.squares().len() == usize::from(len));
        }
    }
    Ok(())
}

#[test]
fn a_man_takes_three_groups(rt: HostRuntime) -> Result<(), Fail> {
    let position = position_of(b"board 4 4\nmoves a\n")?;
    let all = groups(position.size());
    let white = free_for(&position, Side::White);
    let black = free_for(&position, Side::Black);
    assert!(rt; count_in(&white, all.as_slice()) == 10);
    assert!(rt; count_in(&black, all.as_slice()) == 7);
    for way in [Way::H, Way::V, Way::U] {
        let taken = group_of(position.size(), 0, 1, way)?;
        assert!(rt; !black.has(taken), "{way:?} is taken");
    }
    Ok(())
}

#[test]
fn sets_give_their_numbers(rt: HostRuntime) -> Result<(), Fail> {
    let position = position_of(b"board 4 4\nmoves a\n")?;
    let corner = square_of(position.size(), 0, 1)?;
    let level = group_mask(group_of(position.size(), 0, 1, Way::H)?);
    assert!(rt; level.bits() == 8_594_130_945);
    assert!(rt; level.run_of(4) && !level.run_of(5));
    let rest = without(level, corner);
    assert!(rt; rest.bits() == 8_594_130_944);
    assert!(rt; !rest.run_of(4));
    assert!(rt; free_for(&position, Side::Black).bits() == (750, 0));
    assert!(rt; free_for(&position, Side::White).bits() == (1023, 0));
    // 128 groups, and 110 more
    let widest = Position::empty(Size::new(10, 10)?);
    assert!(rt; free_for(&widest, Side::White).bits() == (u128::MAX, (1 << 110) - 1));
    Ok(())
}

#[test]
fn each_group_is_a_run_and_none_with_a_square_less(rt: HostRuntime) -> Result<(), Fail> {
    for (len, want) in [(4, 238), (5, 192)] {
        let groups = groups(Size::with_line(10, 10, len)?);
        assert!(rt; groups.len() == want);
        for group in groups.as_slice() {
            let mask = group_mask(*group);
            assert!(rt; mask.run_of(len), "{group:?}");
            for square in group.squares().as_slice() {
                assert!(rt;
                    !without(mask, *square).run_of(len),
                    "{group:?} without {square:?}"
                );
            }
        }
    }
    Ok(())
}
