//! Lines: the squares from an anchor in one direction.
ghost use Rattle.std.specs.Prelude.{◌≡◌, ◌<◌, ◌≤◌};
ghost use Rattle.game_rules.specs.Board.{is_line, line_length, step_of};

use crate::Size;
use game_rules::{Length, Way};

/// No line has more squares.
pub const MOST_IN_LINE: usize = 5;

/// How many squares a line of this length has.
pub(crate) fn squares_in(len: Length) -> u8
    ensures value { result ≡ line_length len }
    ensures least { 4 ≤ result }
    ensures most { result ≤ 5 }
{
    match len {
        Length::Four => 4,
        Length::Five => 5,
    }
}

/// Whether the squares of a line from the anchor are all on the board.
pub(crate) fn is_line(size: Size, way: Way, anchor: (u8, u8)) -> bool
    requires column { anchor.0 < 10 }
    requires row { anchor.1 ≤ 10 }
    ensures { result ≡ is_line size way anchor }
{
    for i in 0..size.line() {
        if !size.has_at(step_of(way, anchor, i)) {
            return false;
        }
    }
    true
}

/// The square that lies so many steps from another.
pub(crate) fn step_of(way: Way, square: (u8, u8), i: u8) -> (u8, u8)
    requires column { square.0 < 10 }
    requires row { square.1 ≤ 10 }
    requires steps { i < 5 }
    ensures { result ≡ step_of way square i }
{
    match way {
        Way::H => (square.0 + i, square.1),
        Way::V => (square.0, square.1 + i),
        Way::U => (square.0 + i, square.1 + i),
        Way::D => (square.0 + i, square.1.saturating_sub(i)),
    }
}
