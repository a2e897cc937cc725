//! How many instances of each rule fit on larger boards, as counted by hand, and the sizes of their types.
use crate::squares::position_of;
use base_rules::{Baseclaim, Baseinverse, list_baseclaim, list_baseinverse};
use board_bits::{Position, Size};
use claimeven::{Claimeven, list_claimeven};
use group_rules::{
    Aftereven, Before, Specialbefore, list_aftereven, list_before, list_specialbefore,
};
use inverse_rules::{
    Highinverse, Lowinverse, Vertical, list_highinverse, list_lowinverse, list_vertical,
};
use std::test::Fail;

/// How many instances of each rule fit.
fn counts(p: &Position) -> [usize; 9] {
    [
        list_claimeven(p).len(),
        list_baseinverse(p).len(),
        list_baseclaim(p).len(),
        list_lowinverse(p).len(),
        list_highinverse(p).len(),
        list_vertical(p).len(),
        list_aftereven(p).len(),
        list_before(p).len(),
        list_specialbefore(p).len(),
    ]
}

#[test]
fn counts_on_larger_boards(rt: HostRuntime) -> Result<(), Fail> {
    let midgame = position_of(b"board 7 6\nmoves dddcceba\n")?;
    assert!(rt; counts(&midgame).as_slice() == [15, 21, 36, 26, 9, 12, 44, 28, 130].as_slice());
    let widest = Position::empty(Size::new(10, 10)?);
    assert!(rt; counts(&widest).as_slice() == [50, 45, 0, 720, 45, 40, 238, 207, 384].as_slice());
    let of_five = Position::empty(Size::with_line(10, 10, 5)?);
    assert!(rt; &counts(&of_five)[6..] == [192, 164, 348].as_slice());
    Ok(())
}

#[test]
fn a_type_has_its_written_parts_alone(rt: HostRuntime) -> Result<(), Fail> {
    for (size, parts) in [
        (size_of::<Claimeven>(), 2),
        (size_of::<Baseinverse>(), 4),
        (size_of::<Baseclaim>(), 6),
        (size_of::<Lowinverse>(), 8),
        (size_of::<Highinverse>(), 4),
        (size_of::<Vertical>(), 2),
        (size_of::<Aftereven>(), 4),
        (size_of::<Before>(), 4),
        (size_of::<Specialbefore>(), 8),
    ] {
        assert!(rt; size == parts);
    }
    Ok(())
}
