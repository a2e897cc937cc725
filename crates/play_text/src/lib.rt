//! The text of a game that is played by a plan, as definitions that code cites: which lines are read, what is written for
//! each move of White's, and how it ends.
//!
//! The definitions stand in `specs/`. The types here are those that code and definitions share, and each function of
//! `laws` is a law about the definitions: its contract is the theorem, and its body is empty.
#![tactic(auto)]

ghost use Rattle.std.specs.Prelude.{◌≡◌, ◌≤◌, length};
ghost use Rattle.play_text.specs.Words.{kind_word};

pub mod laws;

/// Why a line is no move of White's.
#[derive(Clone, Copy, Debug, PartialEq, Eq)]
pub enum PlayKind {
    /// The line isn't a single column letter of the board.
    BadMove,
    /// A move after the end of the game.
    GameOver,
    /// A move into a column that has no room.
    ColumnFull,
}

impl PlayKind {
    /// The name by which a report calls it.
    pub fn word(self) -> &'static [u8]
        ensures word { result.now ≡ kind_word self }
        ensures short { length result.now ≤ 10 }
    {
        match self {
            PlayKind::BadMove => b"BadMove",
            PlayKind::GameOver => b"GameOver",
            PlayKind::ColumnFull => b"ColumnFull",
        }
    }
}

/// The first line that is no move of White's: why, and the number of the line in the whole input, counted from 1.
#[derive(Clone, Copy, Debug, PartialEq, Eq)]
pub struct PlayFault {
    pub kind: PlayKind,
    pub at: u64,
}
