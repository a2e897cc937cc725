//! How much of the path of one lemma the next one repeats. Paths mostly differ only at their end, so the letters are
//! compared with the moves that are there already, in blocks as two paths are.
ghost use Rattle.std.specs.Prelude.{◌≡◌, ◌≤◌, true, length, map, take};
ghost use Rattle.game_rules.specs.Grammar.{letter_of};

use text_words::{Column, letter_of};

/// How many of the first letters are those of the first moves.
#[inline(always)]
pub(crate) fn named_moves(moves: &[Column], letters: &[u8]) -> usize
    ensures moves { result ≤ length moves.now }
    ensures letters { result ≤ length letters.now }
    ensures named { take result letters.now ≡ map letter_of (take result moves.now) }
{
    let most = moves.len().min(letters.len());
    let (moves, letters) = (&moves[..most], &letters[..most]);
    let at = past_block::<64>(moves, letters, 0);
    let at = past_block::<32>(moves, letters, at);
    let at = past_block::<16>(moves, letters, at);
    let at = past_block::<8>(moves, letters, at);
    let at = past_block::<4>(moves, letters, at);
    let at = past_block::<2>(moves, letters, at);
    past_block::<1>(moves, letters, at)
}

/// The place behind the block of so many letters that begins here, where they name its moves; else this place.
#[inline(always)]
fn past_block<const N: usize>(moves: &[Column], letters: &[u8], at: usize) -> usize
    requires pairs { length moves.now ≡ length letters.now }
    requires within { at ≤ length moves.now }
    requires named { take at letters.now ≡ map letter_of (take at moves.now) }
    ensures within { result ≤ length moves.now }
    ensures named { take result letters.now ≡ map letter_of (take result moves.now) }
{
    if moves.len() - at >= N && block_is_named::<N>(&moves[at..at + N], &letters[at..at + N]) {
        at + N
    } else {
        at
    }
}

/// Whether the letters of a block name its moves.
#[inline(always)]
fn block_is_named<const N: usize>(moves: &[Column], letters: &[u8]) -> bool
    requires moves { length moves.now ≡ N }
    requires letters { length letters.now ≡ N }
    ensures { result ≡ true → letters.now ≡ map letter_of moves.now }
{
    let mut named = true;
    for i in 0..N {
        named &= letters[i] == letter_of(moves[i]);
    }
    named
}
