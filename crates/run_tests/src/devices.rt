//! What runs read and write, over a source that gives its bytes in pieces, and over one that isn't asked.
use crate::running::{Devices, SOUND, run_over};
use std::test::Fail;

pub(crate) const TWO_SQUARES_LEFT: &str = "board 4 4\nmoves cdccddcdaaaabb";

/// Two squares are left, and nobody wins.
pub(crate) const TWO_SQUARES_PROOF: &str = "victor 1\n\
    board 4 4\n\
    moves cdccddcdaaaabb\n\
    1 bb W- end\n\
    2 b W- one b 1\n\
    3 - W- all b:2\n\
    4 bb B- end\n\
    5 b B- all b:4\n\
    6 - B- one b 5\n\
    value draw 3 6\n";

/// What becomes of the proof of the two squares.
pub(crate) const UPGRADED: &str = "victor 2\n\
    board 4 4\n\
    moves cdccddcdaaaabb\n\
    1 bb W- end\n\
    2 b W- one b 1\n\
    3 - W- all b:2\n\
    4 bb B- end\n\
    5 b B- all b:4\n\
    6 - B- one b 5\n\
    value draw 3 6\n";

/// A game by a plan up to a full board.
pub(crate) const DUEL: &str =
    "board 4 4\nmoves -\nplan CE:a1 CE:a3 CE:b1 CE:b3 BI:c1,d1 LI:c2-c4,d2-d4\n\
    c\nc\nd\nc\na\na\nb\nb\n";

/// What is answered there.
pub(crate) const DUEL_ANSWERS: &str =
    "c1 d1\nc2 c3\nd2 d3\nc4 d4\na1 a2\na3 a4\nb1 b2\nb3 b4 full\n";

/// With no plan looked for.
pub(crate) const PROVE_BY_SEARCH: &[&str] = &["prove", "--reach", "0"];

pub(crate) const CHECK: &[&str] = &["check"];

pub(crate) const UPGRADE: &[&str] = &["upgrade"];

pub(crate) const PLAY: &[&str] = &["play"];

/// A game by an odd threat, in which Black enters the pair and then has one column left.
pub(crate) const ZUGZWANG: &str = "board 4 4\nmoves dccbbdbaddc\nc\na\n";

/// What is written of it.
pub(crate) const ZUGZWANG_ANSWERS: &str = "threat a3h BI:b4,c4\nc4 b4\na2 a3 won\n";

pub(crate) const THREAT: &[&str] = &["threat"];

pub(crate) const TRIM: &[&str] = &["trim"];

/// A game whose last move but one is a mistake.
pub(crate) const MISTAKE: &str = "board 4 4\nmoves cdccddcdaababb\n";

/// What is said of its last two moves.
pub(crate) const MISTAKE_MARKS: &str = "13 b2 bad\n14 b3 ok\n";

pub(crate) const ANNOTATE: &[&str] = &["annotate", "--last", "2"];

const DRILL: &[&str] = &["drill", "4", "4", "12", "1", "1"];

#[test]
fn a_drill_reads_nothing(rt: HostRuntime) -> Result<(), Fail> {
    let devices = Devices {
        source_fails: &[1],
        ..SOUND
    };
    let got = run_over(rt.alloc(), DRILL, b"", devices)?;
    assert!(rt; got.status == 0);
    assert!(rt; got.out.as_slice() == b"drill win 1 draw 0 loss 0 unknown 0\n".as_slice());
    Ok(())
}

#[test]
fn a_source_may_give_its_bytes_in_pieces(rt: HostRuntime) -> Result<(), Fail> {
    for (words, input, out) in [
        (PROVE_BY_SEARCH, TWO_SQUARES_LEFT, TWO_SQUARES_PROOF),
        (PLAY, DUEL, DUEL_ANSWERS),
    ] {
        let devices = Devices { piece: 4, ..SOUND };
        let got = run_over(rt.alloc(), words, input.as_bytes(), devices)?;
        assert!(rt; got.status == 0 && got.err.is_empty(), "{words:?}");
        assert!(rt; got.out.as_slice() == out.as_bytes(), "{words:?}");
    }
    Ok(())
}
