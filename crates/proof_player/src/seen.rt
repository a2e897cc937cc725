//! The board as it lies, or turned round.
ghost use Rattle.std.specs.Prelude.{◌≡◌, ◌<◌};
ghost use Rattle.follow_text.specs.Following.{seen, seen_column};

use board_bits::{Column, Position, Size};

/// The position as it is seen.
pub(crate) fn seen(position: &Position, turned: bool) -> Position
    ensures { result ≡ seen turned position.now }
{
    if turned { position.mirror() } else { *position }
}

/// The column as it is seen, or a column that is seen as the board has it.
pub(crate) fn seen_column(size: Size, turned: bool, column: Column) -> Column
    requires { column < size.cols }
    ensures { result ≡ seen_column turned size.cols column }
{
    if turned {
        size.nth_column(size.cols() - 1 - column.index())
    } else {
        column
    }
}
