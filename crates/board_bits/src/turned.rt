//! A word with its columns in the other order. All ten columns are turned, so that the loop has no end to look for and
//! the compiler can lay it out; the shift behind it drops those beyond the board.
ghost use Rattle.std.specs.Prelude.{◌≡◌, ◌≤◌};
ghost use Rattle.board_bits.specs.Turned.{image_word};

/// One more than the most that the bits of a column hold.
const COLUMN_BASE: u128 = 2048;

/// The word in which each of so many columns stands where the one as far from the other side stood.
pub(crate) fn turned(word: u128, cols: u8) -> u128
    requires { cols ≤ 10 }
    ensures { result ≡ image_word word cols }
{
    let mut image = 0;
    for column in 0..10u32 {
        let part = (word >> (11 * column)) % COLUMN_BASE;
        image = image * COLUMN_BASE + part;
    }
    image >> (11 * u32::from(10 - cols))
}
