//! The texts of squares.
ghost use Rattle.std.specs.Prelude.{◌≡◌, ◌+◌, ◌≤◌, ◌++◌, decimal};
ghost use Rattle.arrayvec.specs.ArrayVec.{array_vec_len};
ghost use Rattle.plan_text.specs.Items.{square_text};

use crate::letters::letter_of;
use crate::line::push_text;
use arrayvec::ArrayVec;
use board_bits::Square;
use itoa::Buffer;

/// Puts the text of a square behind what is there: its column's letter and its row, as `a1`.
pub fn push_square<const N: usize>(to: &mut ArrayVec<u8, N>, square: Square)
    requires { array_vec_len to.old + 3 ≤ N }
    ensures items { to.new.items ≡ to.old.items ++ square_text square }
    ensures bound { array_vec_len to.new ≤ array_vec_len to.old + 3 }
{
    to.push(letter_of(square.column()));
    push_row(to, square.row());
}

/// Puts a row in decimal.
#[tactic(auto, using(crate::proofs::Rows::row_short))]
fn push_row<const N: usize>(to: &mut ArrayVec<u8, N>, row: u8)
    requires row { row ≤ 10 }
    requires room { array_vec_len to.old + 2 ≤ N }
    ensures items { to.new.items ≡ to.old.items ++ decimal row }
    ensures bound { array_vec_len to.new ≤ array_vec_len to.old + 2 }
{
    let mut digits = Buffer::new();
    push_text(to, digits.format(row).as_bytes());
}
