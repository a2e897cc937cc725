//! The game itself, as definitions that every other crate cites: the board and its lines, positions, moves, the end
//! of a game, its value under perfect play, what the plain search costs, and the text of a game.
//!
//! The definitions stand in `specs/`, in the game's own terms. The enums here are those that code and definitions
//! share, and each function of `board_laws`, `laws` and `text_laws` is a law about the definitions: its contract is the
//! theorem, and its body is empty. Nothing here knows how a position is kept in memory.
#![tactic(auto)]

ghost use Rattle.std.specs.Prelude.{◌≡◌, ◌≤◌, length};
ghost use Rattle.game_rules.specs.Position.{other};
ghost use Rattle.game_rules.specs.Questions.{side_asked};
ghost use Rattle.game_rules.specs.Value.{win_of};
ghost use Rattle.game_rules.specs.Words.{kind_word};

pub mod board_laws;
pub mod laws;
pub mod mirror_laws;
pub mod text_laws;

/// No board has more groups, of either length.
pub const MOST_GROUPS: usize = 238;

/// One of the two players. White moves first.
#[derive(Clone, Copy, PartialEq, Eq)]
pub enum Side {
    White,
    Black,
}

impl Side {
    /// The other player.
    pub fn other(self) -> Side
        ensures { result ≡ other self }
    {
        match self {
            Side::White => Side::Black,
            Side::Black => Side::White,
        }
    }

    /// The end of a game that the side has won.
    pub fn win(self) -> End
        ensures { result ≡ win_of self }
    {
        match self {
            Side::White => End::White,
            Side::Black => End::Black,
        }
    }
}

/// How many squares in a line win, and so how many each line of a board has: four or five.
#[derive(Clone, Copy, Debug, PartialEq, Eq, Hash)]
pub enum Length {
    Four,
    Five,
}

/// How a game ended: with a win of White, a win of Black, or a full board on which no side has a line.
#[derive(Clone, Copy, Debug, PartialEq, Eq)]
pub enum End {
    White,
    Black,
    Draw,
}

/// The direction in which a line runs from its anchor, its leftmost square (its lowest for `V`).
#[derive(Clone, Copy, Debug, PartialEq, Eq)]
pub enum Way {
    /// To the right.
    H,
    /// Upwards.
    V,
    /// Upwards to the right.
    U,
    /// Downwards to the right.
    D,
}

/// What is asked of a position: whether White wins under perfect play, or whether Black does.
#[derive(Clone, Copy, PartialEq, Eq)]
pub enum Question {
    WhiteWins,
    BlackWins,
}

impl Question {
    /// The side of which it is asked whether it wins.
    pub fn side(self) -> Side
        ensures { result ≡ side_asked self }
    {
        match self {
            Question::WhiteWins => Side::White,
            Question::BlackWins => Side::Black,
        }
    }
}

/// Why a text is no game. [`InputFault`] says where.
#[derive(Clone, Copy, Debug, PartialEq, Eq)]
pub enum InputKind {
    /// A byte of the fixed parts is another byte or is missing.
    BadHeader,
    /// The number of columns or rows isn't one that a board has.
    BadSize,
    /// A byte of the list of moves is no column letter of the board, or the list has none.
    BadColumn,
    /// A move into a column that has no room.
    ColumnFull,
    /// A move after the end of the game.
    GameOver,
    /// A byte after the end of the text.
    Trailing,
}

impl InputKind {
    /// The name by which a report calls the kind.
    pub fn word(self) -> &'static [u8]
        ensures word { result.now ≡ kind_word self }
        ensures short { length result.now ≤ 10 }
    {
        match self {
            InputKind::BadHeader => b"BadHeader",
            InputKind::BadSize => b"BadSize",
            InputKind::BadColumn => b"BadColumn",
            InputKind::ColumnFull => b"ColumnFull",
            InputKind::GameOver => b"GameOver",
            InputKind::Trailing => b"Trailing",
        }
    }
}

/// The first fault of a text from the left: its kind and its byte place, counted from 0.
#[derive(Clone, Copy, Debug, PartialEq, Eq)]
pub struct InputFault {
    pub kind: InputKind,
    pub at: u32,
}

/// Where reading a text stops: the kind of the fault, and how many bytes there are from its place on.
#[derive(Clone, Copy)]
pub struct Stop {
    pub kind: InputKind,
    pub left: usize,
}
