//! The order in which a search visits the columns: from the middle outwards, since lines through the middle are many.
ghost use Rattle.std.specs.Prelude.{◌≡◌, ◌+◌, ◌<◌, ◌≤◌};
ghost use Rattle.game_rules.specs.Cost.{centre_out};
ghost use Rattle.board_bits.specs.Order.{column_at};

use crate::{Column, MOST_COLS, Size};
use arrayvec::ArrayVec;

/// The columns by their distance from the middle, and of two equally far ones the left one first: four columns give
/// `b c a d`, and seven give `d c e b f a g`.
pub fn centre_out(size: Size) -> ArrayVec<Column, MOST_COLS>
    ensures { result.items ≡ centre_out size.cols }
{
    let mut order = ArrayVec::new();
    for place in 0..size.cols() {
        order.push(size.nth_column(column_at(size.cols(), place)));
    }
    order
}

/// The number of the column at a place of that order. The places step away from the middle to one side and then to
/// the other, first to the left exactly where the number of columns is odd.
fn column_at(cols: u8, place: u8) -> u8
    requires { place < cols }
    ensures value { result ≡ column_at cols place }
    ensures within { result < cols }
{
    let middle = (cols - 1) / 2;
    let steps = place / 2 + place % 2;
    if place % 2 == cols % 2 {
        middle - steps
    } else {
        middle + steps
    }
}
