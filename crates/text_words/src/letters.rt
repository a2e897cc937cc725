//! The letters of columns: `a` is the first one from the left.
ghost use Rattle.std.specs.Prelude.{◌≡◌};
ghost use Rattle.game_rules.specs.Grammar.{letter_of};

use board_bits::Column;

/// The letter of a column.
pub fn letter_of(column: Column) -> u8
    ensures { result ≡ letter_of column }
{
    b'a' + column.index()
}
