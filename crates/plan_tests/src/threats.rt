//! Why lists of pairs are no threats of small boards.
use base_rules::Baseinverse;
use board_bits::{Position, Square, Way, read_game};
use open_groups::{GroupId, group_at};
use std::test::Fail;
use threat_rules::{Threat, ThreatFault};

/// One column alone has room, and White lacks the third square of it.
const ONE_COLUMN: &[u8] = b"board 4 4\nmoves dccbbdbbddcca\n";

/// Two more columns have one empty square each.
const WITH_PAIR: &[u8] = b"board 4 4\nmoves dccbbdbaddc\n";

const START: &[u8] = b"board 4 4\nmoves -\n";

const WHITE_WON: &[u8] = b"board 4 4\nmoves abababa\n";

const BLACK_WON: &[u8] = b"board 4 4\nmoves abababdb\n";

/// The square of a letter and a row.
fn square_of(p: &Position, letter: u8, row: u8) -> Option<Square> {
    p.size().square(p.size().column_named(letter)?, row)
}

/// The level group whose anchor is in the first column.
fn level(p: &Position, row: u8) -> Option<GroupId> {
    group_at(p.size(), square_of(p, b'a', row)?, Way::H)
}

/// The pair of the highest squares of columns b and c.
fn top_pair(p: &Position) -> Option<Baseinverse> {
    Baseinverse::new(p.size(), square_of(p, b'b', 4)?, square_of(p, b'c', 4)?)
}

#[test]
fn what_is_no_threat_is_refused(rt: HostRuntime) -> Result<(), Fail> {
    for (game, row, pairs, fault) in [
        (START, 3, 0, Some(ThreatFault::NotBlackToMove)),
        (BLACK_WON, 3, 0, Some(ThreatFault::NotBlackToMove)),
        (WHITE_WON, 3, 0, Some(ThreatFault::Ended)),
        (ONE_COLUMN, 4, 0, Some(ThreatFault::BadGroup)),
        (ONE_COLUMN, 3, 1, Some(ThreatFault::BadPair(1))),
        (WITH_PAIR, 3, 2, Some(ThreatFault::BadPair(2))),
        (ONE_COLUMN, 3, 0, None),
        (WITH_PAIR, 3, 1, None),
    ] {
        let p = read_game(game)?;
        let group = level(&p, row).ok_or("no group")?;
        let pair = top_pair(&p).ok_or("no pair")?;
        let list = [pair, pair];
        assert!(rt; Threat::check(&p, group, &list[..pairs.min(list.len())]).err() == fault);
    }
    Ok(())
}

#[test]
fn columns_without_a_pair_are_told(rt: HostRuntime) -> Result<(), Fail> {
    let p = read_game(WITH_PAIR)?;
    let group = level(&p, 3).ok_or("no group")?;
    let column = p.size().column_named(b'b').ok_or("no column")?;
    assert!(rt; Threat::check(&p, group, &[]).err() == Some(ThreatFault::Unpaired(column)));
    Ok(())
}
