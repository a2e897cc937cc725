//! What a lemma's reason says to play.
ghost use Rattle.std.specs.Prelude.{◌≡◌, ◌==◌, length, Some, option_map};
ghost use Rattle.std.specs.List.{find};
ghost use Rattle.follow_text.specs.Following.{behind_mirrors, own_move_at};
ghost use Rattle.proof_book.specs.Entries.{reason_held, HeldFits};
ghost use Rattle.proof_book.specs.Cite.{Cite as CodeCite};
ghost use Rattle.proof_player.specs.Playing.{IsLemmaOf, StandsAt, step_of};

use crate::seen::seen_column;
use board_bits::{Column, Position};
use proof_book::{Book, Cite, Held, Reason};

/// The reason at which play stands at a lemma, which is its own or the one behind the mirror images that it names, and
/// whether the board is turned there.
pub(crate) fn settled(book: &Book, lemma: u32, turned: bool) -> (Held<'_>, bool)
    requires { IsLemmaOf book.now lemma }
    ensures is { behind_mirrors book.now lemma turned ≡ Some (reason_held result.0, result.1) }
    ensures fits { HeldFits result.0 }
{
    let mut at = lemma;
    let mut board = turned;
    while let Reason::Mirror(next) = book.reason(at) {
        at = next;
        board = !board;
    }
    (book.reason(at), board)
}

/// The holder's move at a lemma: its column on the board as it lies, and the lemma at which play goes on.
#[derive(Clone, Copy)]
pub(crate) struct Step {
    pub(crate) column: Column,
    pub(crate) lemma: u32,
    pub(crate) turned: bool,
}

/// The holder's move at a lemma that stands at the position as it is seen, and None exactly where its reason names none.
pub(crate) fn own_move(book: &Book, now: &Position, lemma: u32, turned: bool) -> Option<Step>
    requires { StandsAt book.now lemma turned now.now }
    ensures { option_map step_of result ≡ own_move_at book.now (length now.now.columns) lemma turned }
{
    let (reason, turned) = settled(book, lemma, turned);
    match reason {
        Reason::One(cite) => Some(Step {
            column: seen_column(now.size(), turned, cite.column),
            lemma: cite.lemma,
            turned,
        }),
        _ => None,
    }
}

/// The first cite of the column.
pub(crate) fn cite_for(cites: &[Cite], column: Column) -> Option<Cite>
    ensures { result ≡ find (λ (cite : CodeCite). cite.column == column) cites.now }
{
    for cite in cites {
        if cite.column == column {
            return Some(*cite);
        }
    }
    None
}
