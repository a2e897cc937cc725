//! A line as words, with a single space between each two: its first word, and what stands behind it. It is gone through
//! byte by byte, since most words are short.
ghost use Rattle.std.specs.Prelude.{◌≡◌, ◌<◌, ◌≤◌, [], ◌∷◌, true, IfSome, MatchOption, length, take, position, ◌==◌};
ghost use Rattle.std.specs.List.{list_all};
ghost use Rattle.game_rules.specs.Letters.{is_letter};
ghost use Rattle.plan_text.specs.Words.{words_of};
ghost use Rattle.text_words.specs.Words.{AreNoSpaces};

use board_bits::Size;

/// The first word, and what stands behind the space after it, if there is one. It is gone through byte by byte, since most
/// words are short.
#[inline(always)]
pub fn split_word(bytes: &[u8]) -> (&[u8], Option<&[u8]>)
    ensures words { MatchOption result.1 (words_of bytes.now ≡ result.0.now ∷ []) (λ rest. words_of bytes.now ≡ result.0.now ∷ words_of rest.now) }
    ensures shorter { IfSome result.1 (λ rest. length rest.now < length bytes.now) }
{
    split_at(bytes, first_space(bytes, 0))
}

/// The same, where so many letters of the first word are known.
#[inline(always)]
pub fn split_path(bytes: &[u8], known: usize, size: Size) -> (&[u8], Option<&[u8]>)
    requires within { known ≤ length bytes.now }
    requires letters { list_all (is_letter size.cols) (take known bytes.now) ≡ true }
    ensures words { MatchOption result.1 (words_of bytes.now ≡ result.0.now ∷ []) (λ rest. words_of bytes.now ≡ result.0.now ∷ words_of rest.now) }
    ensures letters { known ≤ length result.0.now }
    ensures known { take known result.0.now ≡ take known bytes.now }
{
    split_at(bytes, first_space(bytes, known))
}

/// What stands before the first space, which is at this place, and what behind it; where there is none, all.
#[inline(always)]
fn split_at(bytes: &[u8], space: Option<usize>) -> (&[u8], Option<&[u8]>)
    requires { space ≡ position (λ byte. byte == 32) bytes.now }
    ensures word { MatchOption space (result.0.now ≡ bytes.now) (λ end. result.0.now ≡ take end bytes.now) }
    ensures words { MatchOption result.1 (words_of bytes.now ≡ result.0.now ∷ []) (λ rest. words_of bytes.now ≡ result.0.now ∷ words_of rest.now) }
    ensures shorter { IfSome result.1 (λ rest. length rest.now < length bytes.now) }
{
    match space {
        Some(end) => (&bytes[..end], Some(&bytes[end + 1..])),
        None => (bytes, None),
    }
}

/// Where the first space stands, which is none of the first so many bytes. It is gone to byte by byte.
#[inline(always)]
fn first_space(bytes: &[u8], known: usize) -> Option<usize>
    requires within { known ≤ length bytes.now }
    requires none { AreNoSpaces bytes.now known }
    ensures first { result ≡ position (λ byte. byte == 32) bytes.now }
    ensures past { IfSome result (λ at. (known ≤ at) × (at < length bytes.now)) }
{
    for at in known..bytes.len() {
        if bytes[at] == b' ' {
            return Some(at);
        }
    }
    None
}
