//! Whom the marks of a game's moves ask, and how often.
ghost use Rattle.std.specs.Prelude.{◌≡◌, false};

use board_bits::{End, Position, read_game_moves};
use proof_tools::{Mark, Valuer, annotate};
use std::alloc::AllocError;
use std::test::Fail;

const TWELVE_MOVES: &[u8] = b"board 4 4\nmoves cdccddcdaabb\n";

const NO_MOVES: &[u8] = b"board 4 4\nmoves -\n";

/// Who tells of no position what it is worth, and finds no memory at a call.
#[derive(Drop)]
struct KnowsNothing {
    asked: u32,
    fails_at: u32,
}

impl Valuer for KnowsNothing {
    ghost holds = { λ nobody. λ p. λ found. found ≡ false };

    fn value_of(&mut self, _p: &Position) -> Result<Option<End>, AllocError> {
        self.asked = self.asked.saturating_add(1);
        if self.asked == self.fails_at {
            return Err(AllocError);
        }
        Ok(None)
    }
}

/// How often it is asked for the last moves of a game, and how many marks there are, all of them open; None where it found
/// no memory.
fn asked(text: &[u8], last: usize, fails_at: u32) -> Result<(u32, Option<usize>), Fail> {
    let game = read_game_moves(text).ok().ok_or("no game")?;
    let mut nobody = KnowsNothing { asked: 0, fails_at };
    let marks = annotate(game.position().size(), game.moves(), last, &mut nobody);
    let Ok(marks) = marks else {
        return Ok((nobody.asked, None));
    };
    for mark in marks.as_slice() {
        if *mark != Mark::Open {
            return Err("a mark that nothing tells".into());
        }
    }
    Ok((nobody.asked, Some(marks.len())))
}

#[test]
fn each_position_is_asked_about_once(rt: HostRuntime) -> Result<(), Fail> {
    for (last, calls, marks) in [(0, 0, 0), (1, 2, 1), (3, 4, 3), (12, 13, 12), (100, 13, 12)] {
        assert!(rt; asked(TWELVE_MOVES, last, 0)? == (calls, Some(marks)));
    }
    for last in [0, 1, 100] {
        assert!(rt; asked(NO_MOVES, last, 0)? == (0, Some(0)));
    }
    Ok(())
}

#[test]
fn want_of_memory_ends_it_at_once(rt: HostRuntime) -> Result<(), Fail> {
    for call in 1..=13 {
        assert!(rt; asked(TWELVE_MOVES, 100, call)? == (call, None));
    }
    Ok(())
}
