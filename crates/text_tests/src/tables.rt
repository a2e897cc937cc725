//! Each call with ample memory, where it answers something else than want of memory; and tables that are full.
use board_bits::{InputFault, Position, read_game};
use cert_checker::MirrorIndex;
use position_table::{Found, Question, Table};
use proof_text::Claim;
use std::test::Fail;

const FIRST: &[u8] = b"board 4 4\nmoves a\n";

const SECOND: &[u8] = b"board 4 4\nmoves b\n";

fn found(lemma: u32) -> Found {
    Found {
        lemma,
        answer: true,
    }
}

/// One of 1,296 different positions: two men among each of the columns a to d, e to g and h to j.
fn numbered(number: u32) -> Result<Position, InputFault> {
    let mut text = *b"board 10 10\nmoves aaeehh\n";
    text[18] = b'a' + (number % 4) as u8;
    text[19] = b'a' + (number / 4 % 4) as u8;
    text[20] = b'e' + (number / 16 % 3) as u8;
    text[21] = b'e' + (number / 48 % 3) as u8;
    text[22] = b'h' + (number / 144 % 3) as u8;
    text[23] = b'h' + (number / 432 % 3) as u8;
    read_game(&text)
}

#[test]
fn a_full_table_drops_the_oldest_position(rt: HostRuntime) -> Result<(), Fail> {
    let mut table = Table::new(rt.alloc(), 1000)?;
    for number in 0..1000 {
        table.keep(&numbered(number)?, Question::WhiteWins, found(number))?;
    }
    assert!(rt; table.whole());
    table.keep(&numbered(1000)?, Question::WhiteWins, found(1000))?;
    assert!(rt; !table.whole());
    assert!(rt; table.find(&numbered(0)?, Question::WhiteWins).is_none());
    assert!(rt; table.find(&numbered(1)?, Question::WhiteWins) == Some(found(1)));
    assert!(rt; table.find(&numbered(1000)?, Question::WhiteWins) == Some(found(1000)));
    Ok(())
}

#[test]
fn a_table_of_room_one_keeps_the_last_position(rt: HostRuntime) -> Result<(), Fail> {
    let first = read_game(FIRST)?;
    let second = read_game(SECOND)?;
    let mut table = Table::new(rt.alloc(), 1)?;
    assert!(rt; table.whole());
    table.keep(&first, Question::WhiteWins, found(1))?;
    assert!(rt; table.whole());
    table.keep(&second, Question::WhiteWins, found(2))?;
    assert!(rt; table.find(&first, Question::WhiteWins).is_none());
    assert!(rt; table.find(&second, Question::WhiteWins) == Some(found(2)));
    assert!(rt; !table.whole());
    Ok(())
}

#[test]
fn the_first_lemma_is_found_at_the_image(rt: HostRuntime) -> Result<(), Fail> {
    let first = read_game(FIRST)?;
    let image = read_game(b"board 4 4\nmoves d\n")?;
    let mut index = MirrorIndex::new(rt.alloc());
    assert!(rt; index.find(&image, Claim::WhiteFails).is_none());
    index.keep(&first, Claim::WhiteFails, 1)?;
    index.keep(&first, Claim::WhiteFails, 2)?;
    index.keep(&first, Claim::WhiteWins, 3)?;
    assert!(rt; index.find(&image, Claim::WhiteFails) == Some(1));
    assert!(rt; index.find(&image, Claim::WhiteWins) == Some(3));
    assert!(rt; index.find(&image, Claim::BlackFails).is_none());
    assert!(rt; index.find(&first, Claim::WhiteFails).is_none());
    Ok(())
}
