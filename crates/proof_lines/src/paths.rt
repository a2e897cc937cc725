//! How far two paths are the same. Those of neighbouring lemmas mostly are up to their last moves, so they are compared in
//! blocks, each whole and with no exit from its middle, which takes a few instructions for all of its moves; and each half as
//! long as the one before, so that no place is missed.
ghost use Rattle.std.specs.Prelude.{◌≡◌, ◌≤◌, true, length, take};

use board_bits::Column;

/// How many of the first moves are the same in both paths, which are of one length.
#[inline(always)]
pub fn shared_moves(left: &[Column], right: &[Column]) -> usize
    requires { length left.now ≡ length right.now }
    ensures within { result ≤ length left.now }
    ensures same { take result left.now ≡ take result right.now }
{
    let at = past_block::<64>(left, right, 0);
    let at = past_block::<32>(left, right, at);
    let at = past_block::<16>(left, right, at);
    let at = past_block::<8>(left, right, at);
    let at = past_block::<4>(left, right, at);
    let at = past_block::<2>(left, right, at);
    past_block::<1>(left, right, at)
}

/// The place behind the block of so many moves that begins here, where they are the same in both; else this place.
#[inline(always)]
fn past_block<const N: usize>(left: &[Column], right: &[Column], at: usize) -> usize
    requires pairs { length left.now ≡ length right.now }
    requires within { at ≤ length left.now }
    requires same { take at left.now ≡ take at right.now }
    ensures within { result ≤ length left.now }
    ensures same { take result left.now ≡ take result right.now }
{
    if left.len() - at >= N && is_same_block::<N>(&left[at..at + N], &right[at..at + N]) {
        at + N
    } else {
        at
    }
}

#[inline(always)]
fn is_same_block<const N: usize>(left: &[Column], right: &[Column]) -> bool
    requires left { length left.now ≡ N }
    requires right { length right.now ≡ N }
    ensures { result ≡ true → left.now ≡ right.now }
{
    let mut same = true;
    for i in 0..N {
        same &= left[i] == right[i];
    }
    same
}
