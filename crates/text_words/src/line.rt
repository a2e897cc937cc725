//! Short lines as they are being made: each word is put behind what is there.
ghost use Rattle.std.specs.Prelude.{◌≡◌, ◌+◌, ◌≤◌, ◌++◌, length, decimal};
ghost use Rattle.arrayvec.specs.ArrayVec.{array_vec_len};
ghost use Rattle.text_words.specs.Lines.{line_room};

use arrayvec::ArrayVec;
use itoa::Buffer;

/// No line that is made so is longer, with its line feed.
pub const LINE_ROOM: usize = 288;

/// The bytes of a line, or of a prefix of it.
pub type LineText = ArrayVec<u8, LINE_ROOM>;

/// Puts a number in decimal behind what is there.
pub fn push_number(line: &mut LineText, number: u32)
    requires { array_vec_len line.old + 10 ≤ line_room }
    ensures items { line.new.items ≡ line.old.items ++ decimal number }
    ensures bound { array_vec_len line.new ≤ array_vec_len line.old + 10 }
{
    let mut digits = Buffer::new();
    push_text(line, digits.format(number).as_bytes());
}

/// Puts a text behind what is there.
pub fn push_text<const N: usize>(to: &mut ArrayVec<u8, N>, text: &[u8])
    requires { array_vec_len to.old + length text.now ≤ N }
    ensures items { to.new.items ≡ to.old.items ++ text.now }
    ensures bound { array_vec_len to.new ≡ array_vec_len to.old + length text.now }
{
    // the requirement says that it fits
    let _ = to.try_extend_from_slice(text);
}
