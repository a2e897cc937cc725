//! A turn, as a value, and the line that is written for it.
ghost use Rattle.std.specs.Prelude.{◌≡◌, ◌+◌, ◌≤◌, ◌++◌, length, option_map};
ghost use Rattle.arrayvec.specs.ArrayVec.{array_vec_len};
ghost use Rattle.run_frame.specs.Lines.{line_room};
ghost use Rattle.run_turns.specs.Turns.{man_text, end_words, turn_line, falls_to, moved_by, HasRoom, turn_from};

use board_bits::{Column, Position, Square};
use run_frame::{LineText, push_square, push_text};

/// What the last man of a turn ended.
#[derive(Clone, Copy)]
pub enum TurnEnd {
    /// The game goes on.
    GoesOn,
    /// The player made a line.
    Won,
    /// The board is full, and no side has a line.
    Full,
}

/// A turn: a man of the other side's, and the player's answer.
#[derive(Clone, Copy)]
pub struct Turn {
    /// The other side's man; none before its first move.
    pub theirs: Option<Square>,
    /// The player's; none where the other side's filled the board.
    pub mine: Option<Square>,
    /// What the last of them ended.
    pub end: TurnEnd,
}

impl Turn {
    /// The turn from a position in which the other side's man goes into a column, and then the player's into another.
    pub fn new(
        before: &Position,
        theirs: Option<Column>,
        mine: Option<Column>,
        end: TurnEnd,
    ) -> Turn
        requires theirs { HasRoom before.now theirs }
        requires mine { HasRoom (moved_by before.now theirs) mine }
        ensures { result ≡ turn_from before.now theirs mine end }
    {
        let now = match theirs {
            Some(column) => before.after(column),
            None => *before,
        };
        Turn {
            theirs: fallen(before, theirs),
            mine: fallen(&now, mine),
            end,
        }
    }
}

/// The square to which a man falls.
fn fallen(now: &Position, man: Option<Column>) -> Option<Square>
    requires { HasRoom now.now man }
    ensures { result ≡ option_map (falls_to now.now) man }
{
    match man {
        Some(column) => now.playable(column),
        None => None,
    }
}

/// The line for a turn, with its line feed: both squares, with `-` for a man that there is none of, and what the last ended.
pub fn turn_line(turn: &Turn) -> LineText
    ensures { result.items ≡ turn_line turn.now }
{
    let mut line = LineText::new();
    push_man(&mut line, turn.theirs);
    line.push(b' ');
    push_man(&mut line, turn.mine);
    push_text(&mut line, end_words(turn.end));
    line.push(b'\n');
    line
}

/// Puts the square of a man behind what is there.
fn push_man(line: &mut LineText, man: Option<Square>)
    requires { array_vec_len line.old + 3 ≤ line_room }
    ensures items { line.new.items ≡ line.old.items ++ man_text man }
    ensures bound { array_vec_len line.new ≤ array_vec_len line.old + 3 }
{
    match man {
        Some(square) => push_square(line, square),
        None => push_text(line, b"-"),
    }
}

/// What is said of what a turn ended.
fn end_words(end: TurnEnd) -> &'static [u8]
    ensures text { result.now ≡ end_words end }
    ensures short { length result.now ≤ 5 }
{
    match end {
        TurnEnd::GoesOn => b"",
        TurnEnd::Won => b" won",
        TurnEnd::Full => b" full",
    }
}
