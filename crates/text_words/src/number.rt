//! Numbers as texts and commands write them: in decimal, with no sign and no leading zero. They are read digit by digit,
//! since nearly every word of a proof has one.
ghost use Rattle.std.specs.Prelude.{◌≡◌, ◌↔◌, ◌<◌, ◌≤◌, length, slice_index, take, IsTrue, IfSome, MatchOption};
ghost use Rattle.std.specs.Str.Parse.{AllDigits, digits_value};
ghost use Rattle.game_rules.specs.Number.{number_between};
ghost use Rattle.text_words.specs.Words.{AreDigits, EndsDigits, HasNumber, HasNoNumber};

/// No number of 32 bits has more digits.
const MOST_DIGITS: usize = 10;

/// The number from `low` to `high` that the bytes spell, and None exactly where they spell none of them. A number has one
/// spelling: its decimal digits, with no sign and no leading zero.
#[inline(always)]
pub fn number_between(low: u32, high: u32, bytes: &[u8]) -> Option<u32>
    ensures { result ≡ number_between low high bytes.now }
{
    if bytes.len() > MOST_DIGITS {
        return None;
    }
    let number = digits_value(bytes)?;
    number_spelled(low, high, bytes, number)
}

/// The number from `low` to `high` that the first word spells, and what stands behind the space after it, if there is one;
/// None exactly where that word spells none of them. Each byte is looked at once.
#[inline(always)]
pub fn split_number(low: u32, high: u32, bytes: &[u8]) -> Option<(u32, Option<&[u8]>)>
    ensures number { MatchOption result (HasNoNumber low high bytes.now) (λ read. HasNumber low high bytes.now read.0 read.1) }
    ensures shorter { IfSome result (λ read. IfSome read.1 (λ rest. length rest.now < length bytes.now)) }
{
    let (number, end) = leading_digits(bytes);
    if end == bytes.len() {
        return Some((number_spelled(low, high, bytes, number)?, None));
    }
    if bytes[end] != b' ' {
        return None;
    }
    let number = number_spelled(low, high, &bytes[..end], number)?;
    Some((number, Some(&bytes[end + 1..])))
}

/// The number that the digits make, where it is from `low` to `high` and they are its spelling.
#[inline(always)]
fn number_spelled(low: u32, high: u32, digits: &[u8], number: u64) -> Option<u32>
    requires few { length digits.now ≤ MOST_DIGITS }
    requires digits { AllDigits 10 digits.now }
    requires number { number ≡ digits_value 10 digits.now }
    ensures { result ≡ number_between low high digits.now }
{
    if !has_shape(digits) {
        return None;
    }
    if u64::from(low) <= number && number <= u64::from(high) {
        Some(number as u32)
    } else {
        None
    }
}

/// Whether there is a byte, and no zero leads others.
#[inline(always)]
fn has_shape(bytes: &[u8]) -> bool
    ensures { IsTrue result ↔ ((0 < length bytes.now) × (slice_index bytes.now 0 ≡ 48 → length bytes.now ≡ 1)) }
{
    match bytes {
        [] | [b'0', _, ..] => false,
        _ => true,
    }
}

/// The number that the first digits make, and how many they are, up to ten.
#[inline(always)]
fn leading_digits(bytes: &[u8]) -> (u64, usize)
    ensures within { result.1 ≤ length bytes.now }
    ensures few { result.1 ≤ MOST_DIGITS }
    ensures value { result.0 ≡ digits_value 10 (take result.1 bytes.now) }
    ensures digits { AreDigits bytes.now result.1 }
    ensures all { EndsDigits bytes.now result.1 }
{
    let mut value = 0_u64;
    for at in 0..MOST_DIGITS {
        if at >= bytes.len() {
            return (value, at);
        }
        let b'0'..=b'9' = bytes[at] else {
            return (value, at);
        };
        value = value * 10 + u64::from(bytes[at] - b'0');
    }
    (value, MOST_DIGITS)
}

/// The number that the digits make; None exactly where a byte is no digit.
fn digits_value(bytes: &[u8]) -> Option<u64>
    requires { length bytes.now ≤ MOST_DIGITS }
    ensures { MatchOption result (AllDigits 10 bytes.now → ⊥) (λ number. AllDigits 10 bytes.now × (number ≡ digits_value 10 bytes.now)) }
{
    let mut value = 0_u64;
    for byte in bytes {
        let b'0'..=b'9' = *byte else {
            return None;
        };
        value = value * 10 + u64::from(*byte - b'0');
    }
    Some(value)
}
