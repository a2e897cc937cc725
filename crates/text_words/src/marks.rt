//! What stands on both sides of a mark.
ghost use Rattle.std.specs.Prelude.{◌≡◌, option_map};
ghost use Rattle.plan_text.specs.Words.{split_once};

use bstr::ByteSlice;

/// What stands before the first such mark, and what behind it; None exactly where there is none.
pub fn split_once(bytes: &[u8], mark: u8) -> Option<(&[u8], &[u8])>
    ensures { option_map (λ parts. (parts.0.now, parts.1.now)) result ≡ split_once mark bytes.now }
{
    let end = bytes.find_byte(mark)?;
    Some((&bytes[..end], &bytes[end + 1..]))
}
