//! The reading of a line, word by word. Each reader gives what the definition of the same name gives of its words. A word
//! that only a few can be is compared where it stands, with the space behind it; of any other the end is looked for.
ghost use Rattle.std.specs.Prelude.{◌≡◌, ◌≢◌, ℕ, ◌<◌, ◌≤◌, List, ◌∷◌, ◌++◌, [], true, Some, None, IfSome, MatchOption, length, map, option_map, take, ◌==◌};
ghost use Rattle.std.specs.Str.{bytes_eq};
ghost use Rattle.std.specs.List.{list_all};
ghost use Rattle.proof_text.specs.Lemma.{ByOne, ByAll, allows};
ghost use Rattle.proof_text.specs.Spelling.{is_printable, is_remark, claim_word};
ghost use Rattle.proof_text.specs.declared.Verdict.TheVariants.{Draw};
ghost use Rattle.proof_text.specs.Reading.{words_of, number_of, one_of, all_of, reason_of, with_two, verdict_of, read_any, read_line};
ghost use Rattle.proof_lines.specs.Shape as shape;
ghost use Rattle.cert_format.specs.Rooms.{reason_in, lemma_in, kept_in, Reads, ReadsInto};
ghost use Rattle.cert_format.specs.Words.{HasNoClaim, HasCite, HasNoCite, lemma_behind};
ghost use Rattle.text_words.specs.Words.{words_left};

use crate::room::{Kind, LemmaRoom, ReasonRoom};
use arrayvec::ArrayVec;
use plan_lines::{LineFault, members_of};
use proof_lines::{Cite, LONGEST_LINE, Line, MOST_CITES, Reason};
use proof_text::{Claim, Verdict, Version};
use text_words::{Size, split_number, split_path, split_word};

/// No number of a proof is greater.
const GREATEST_NUMBER: u32 = 10_000_000;

/// What the bytes say as a line of a proof of this version on a board of this size, without their line feed. `LineFault`
/// comes exactly where they are no line: where no lemma, remark or verdict of the version is spelled so, or they are more
/// than 8,192 bytes.
pub fn read_line(bytes: &[u8], size: Size, version: Version) -> Result<Line, LineFault>
    ensures { Reads result (read_line version size bytes.now) }
{
    let mut room = LemmaRoom::new();
    match read_into(&mut room, bytes, size, version)? {
        Kind::Lemma => Ok(Line::Lemma(room.into_lemma())),
        Kind::Remark => Ok(Line::Remark),
        Kind::Verdict(verdict) => Ok(Line::Verdict(verdict)),
    }
}

/// Reads a line of a version, a lemma into this room. It is made a part of each caller, as what it calls is of it.
#[inline(always)]
pub(crate) fn read_into(
    room: &mut LemmaRoom,
    bytes: &[u8],
    size: Size,
    version: Version,
) -> Result<Kind, LineFault>
    ensures { ReadsInto room.new result (read_line version size bytes.now) }
{
    let kind = read_any(room, bytes, size)?;
    if allows(version, room, kind) {
        Ok(kind)
    } else {
        Err(LineFault)
    }
}

/// Whether the version has what was read.
fn allows(version: Version, room: &LemmaRoom, kind: Kind) -> bool
    ensures { result ≡ allows version (kept_in room.now kind) }
{
    match (version, kind) {
        (Version::One, Kind::Lemma) => !matches!(room.reason.kind, Reason::Mirror(_)),
        _ => true,
    }
}

/// Reads a line of any version, a lemma into this room. Nearly all lines are lemmas, and no other begins with a number.
#[inline(always)]
fn read_any(room: &mut LemmaRoom, bytes: &[u8], size: Size) -> Result<Kind, LineFault>
    ensures { ReadsInto room.new result (read_any size bytes.now) }
{
    if let Some((number, rest)) = split_number(1, GREATEST_NUMBER, bytes) {
        read_lemma(room, number, rest, size).ok_or(LineFault)?;
        return Ok(Kind::Lemma);
    }
    if is_remark(bytes) {
        return Ok(Kind::Remark);
    }
    let verdict = behind(bytes, b"value ").ok_or(LineFault)?;
    Ok(Kind::Verdict(verdict_of(verdict).ok_or(LineFault)?))
}

/// Whether the bytes are `#` and printable bytes behind it, and no more than a line may have.
fn is_remark(bytes: &[u8]) -> bool
    ensures { result ≡ is_remark bytes.now }
{
    match bytes {
        [first, text @ ..] => {
            *first == b'#' && are_printable(text) && bytes.len() <= LONGEST_LINE
        }
        [] => false,
    }
}

fn are_printable(bytes: &[u8]) -> bool
    ensures { result ≡ list_all is_printable bytes.now }
{
    bytes.iter().all(|byte| (b' '..=b'~').contains(byte))
}

/// Reads a lemma with this number, of which this stands behind the space after the number, into this room.
#[inline(always)]
fn read_lemma(room: &mut LemmaRoom, number: u32, rest: Option<&[u8]>, size: Size) -> Option<()>
    ensures { option_map (λ _. lemma_in room.new) result ≡ lemma_behind size number (words_left rest.entry) }
{
    let rest = rest?;
    let kept = room.path.named(rest, size);
    let (path, rest) = split_path(rest, kept, size);
    room.number = number;
    room.path.read(path, kept, size)?;
    let (claim, rest) = split_claim(rest?)?;
    room.claim = claim;
    read_reason(&mut room.reason, rest, size)
}

/// The claim that the first word makes, and what stands behind the space after it; None where the first word makes no
/// claim, or is the last.
#[inline(always)]
fn split_claim(bytes: &[u8]) -> Option<(Claim, &[u8])>
    ensures { MatchOption result (HasNoClaim bytes.now) (λ read. words_of bytes.now ≡ claim_word read.0 ∷ words_of read.1.now) }
{
    if let Some(rest) = behind(bytes, b"W+ ") {
        return Some((Claim::WhiteWins, rest));
    }
    if let Some(rest) = behind(bytes, b"W- ") {
        return Some((Claim::WhiteFails, rest));
    }
    if let Some(rest) = behind(bytes, b"B+ ") {
        return Some((Claim::BlackWins, rest));
    }
    if let Some(rest) = behind(bytes, b"B- ") {
        return Some((Claim::BlackFails, rest));
    }
    None
}

/// What stands behind the text, if the bytes begin with it.
#[inline(always)]
fn behind<'a>(bytes: &'a [u8], text: &[u8]) -> Option<&'a [u8]>
    ensures { MatchOption result ((rest : List ℕ) → bytes.now ≢ text.now ++ rest) (λ rest. bytes.now ≡ text.now ++ rest.now) }
{
    if bytes.len() < text.len() {
        return None;
    }
    for at in 0..text.len() {
        if bytes[at] != text[at] {
            return None;
        }
    }
    Some(&bytes[text.len()..])
}

/// Reads the words of a reason into this room.
#[inline(always)]
fn read_reason(room: &mut ReasonRoom, bytes: &[u8], size: Size) -> Option<()>
    ensures { option_map (λ _. reason_in room.new) result ≡ reason_of size (words_of bytes.now) }
{
    if is_word(bytes, b"end") {
        room.kind = Reason::Ended;
        return Some(());
    }
    if let Some(rest) = behind(bytes, b"one ") {
        room.kind = Reason::One(one_of(rest, size)?);
        return Some(());
    }
    if let Some(rest) = behind(bytes, b"all ") {
        room.kind = Reason::All(());
        return all_of(rest, size, &mut room.cites);
    }
    if let Some(rest) = behind(bytes, b"plan ") {
        room.kind = Reason::Plan(());
        return members_of(rest, size, &mut room.members);
    }
    if let Some(rest) = behind(bytes, b"mirror ") {
        room.kind = Reason::Mirror(number_of(rest)?);
        return Some(());
    }
    None
}

/// A letter and a number, as two words.
#[inline(always)]
fn one_of(bytes: &[u8], size: Size) -> Option<Cite>
    ensures { option_map (λ cite. ByOne (shape.cite_of cite)) result ≡ one_of size.cols (words_of bytes.now) }
{
    let [letter, b' ', number @ ..] = bytes else {
        return None;
    };
    Some(Cite {
        column: size.column_named(*letter)?,
        lemma: number_of(number)?,
    })
}

/// At most ten cites, each a word.
#[inline(always)]
fn all_of(bytes: &[u8], size: Size, cites: &mut ArrayVec<Cite, MOST_CITES>) -> Option<()>
    ensures { option_map (λ _. ByAll (map shape.cite_of cites.new.items)) result ≡ all_of size.cols (words_of bytes.now) }
{
    cites.clear();
    let mut left = Some(bytes);
    while let Some(words) = left {
        if cites.is_full() {
            return None;
        }
        let Some((cite, rest)) = split_cite(words, size) else {
            return None;
        };
        cites.push(cite);
        left = rest;
    }
    Some(())
}

/// The cite that the first word is, a letter, a colon and a number, and what stands behind the space after it, if there is
/// one; None where that word is no cite. Each byte is looked at once.
#[inline(always)]
fn split_cite(bytes: &[u8], size: Size) -> Option<(Cite, Option<&[u8]>)>
    ensures cite { MatchOption result (HasNoCite size.cols bytes.now) (λ read. HasCite size.cols bytes.now (shape.cite_of read.0) read.1) }
    ensures shorter { IfSome result (λ read. IfSome read.1 (λ rest. length rest.now < length bytes.now)) }
{
    let [letter, b':', number @ ..] = bytes else {
        return None;
    };
    let column = size.column_named(*letter)?;
    let (lemma, rest) = split_number(1, GREATEST_NUMBER, number)?;
    Some((Cite { column, lemma }, rest))
}

/// The verdict whose words stand behind the first word of its line.
fn verdict_of(bytes: &[u8]) -> Option<Verdict>
    ensures { result ≡ verdict_of (words_of bytes.now) }
{
    if is_word(bytes, b"unknown") {
        return Some(Verdict::Unknown);
    }
    if let Some(rest) = behind(bytes, b"win ") {
        return Some(Verdict::Win(number_of(rest)?));
    }
    if let Some(rest) = behind(bytes, b"loss ") {
        return Some(Verdict::Loss(number_of(rest)?));
    }
    if let Some(rest) = behind(bytes, b"draw ") {
        return draw_of(rest);
    }
    None
}

/// A draw with its two numbers.
fn draw_of(bytes: &[u8]) -> Option<Verdict>
    ensures { result ≡ with_two Draw (words_of bytes.now) }
{
    let (white, black) = split_word(bytes);
    Some(Verdict::Draw(number_of(white)?, number_of(black?)?))
}

/// The number that a word spells, from 1 to 10,000,000.
#[inline(always)]
fn number_of(word: &[u8]) -> Option<u32>
    ensures { result ≡ number_of word.now }
{
    match split_number(1, GREATEST_NUMBER, word)? {
        (number, None) => Some(number),
        (_, Some(_)) => None,
    }
}

#[inline(always)]
pub(crate) fn is_word(word: &[u8], text: &[u8]) -> bool
    ensures { result ≡ bytes_eq word.now text.now }
{
    word == text
}
