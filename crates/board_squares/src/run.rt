//! Squares that follow one another in a direction, found in a whole word at once.
ghost use Rattle.std.specs.Prelude.{◌≡◌, ◌≤◌};
ghost use Rattle.board_squares.specs.Runs.{IsLength, shift_of, starts_in, word_runs};

use game_rules::Way;

/// Whether some bits of the word are those of so many squares that follow one another.
pub fn has_run(word: u128, len: u8) -> bool
    requires { IsLength len }
    ensures { result ≡ word_runs word len }
{
    // so that the length is asked for once, and not in each direction
    if len == 4 {
        has_starts(word, 4)
    } else {
        has_starts(word, 5)
    }
}

/// As `has_run`, for a length that the call names.
#[inline(always)]
fn has_starts(word: u128, len: u8) -> bool
    requires { IsLength len }
    ensures { result ≡ word_runs word len }
{
    starts(word, Way::H, len) != 0
        || starts(word, Way::V, len) != 0
        || starts(word, Way::U, len) != 0
        || starts(word, Way::D, len) != 0
}

/// The bits from which so many follow one another in this direction.
pub(crate) fn starts(word: u128, way: Way, len: u8) -> u128
    requires { IsLength len }
    ensures { result ≡ starts_in word (shift_of way) len }
{
    let step = shift_of(way);
    let pairs = word & (word >> step);
    let fours = pairs & (pairs >> (2 * step));
    if len == 4 {
        fours
    } else {
        fours & (word >> (4 * step))
    }
}

/// How many bits lie between a square and the next one in this direction.
fn shift_of(way: Way) -> u32
    ensures value { result ≡ shift_of way }
    ensures most { result ≤ 12 }
{
    match way {
        Way::H => 11,
        Way::V => 1,
        Way::U => 12,
        Way::D => 10,
    }
}
