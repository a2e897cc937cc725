//! The line of a lemma, made from its end: each piece is put before what is there, so a number needs no place of its own
//! first, and one buffer serves every line.
ghost use Rattle.std.specs.Prelude.{◌≡◌, ◌+◌, ◌≤◌, [], ◌∷◌, ◌++◌, map, length, codes, decimal};
ghost use Rattle.game_rules.specs.Grammar.{letter_of, move_list};
ghost use Rattle.proof_text.specs.Spelling.{cite_word, reason_words, lemma_line, longest_path, most_cites};
ghost use Rattle.proof_lines.specs.Shape.{cite_of, reason_viewed};
ghost use Rattle.cert_format.specs.Printed.{cite_words, behind_spaces, behind_word};
ghost use Rattle.text_words.specs.Lines.{line_room};

use crate::verdict_line::claim_word;
use itoa::Buffer;
use proof_lines::{Cite, Reason, ReasonView};
use proof_text::Claim;
use std::marker::Model;
use text_words::{Column, LINE_ROOM, letter_of};

/// The bytes of a line, at the end of a buffer.
#[derive(Drop)]
pub(crate) struct BackLine {
    bytes: [u8; LINE_ROOM],
    start: usize,
}

impl Model for BackLine {
    ghost use Rattle.std.specs.Prelude.{ℕ, List, drop, ◌≤◌};
    ghost use Rattle.text_words.specs.Lines.{line_room};

    ghost Value = { List ℕ };

    ghost view = { λ line. drop line.start line.bytes };

    ghost invariant = { λ line. line.start ≤ line_room };
}

impl BackLine {
    /// No byte.
    pub(crate) fn new() -> BackLine
        ensures { result ≡ [] }
    {
        BackLine {
            bytes: [0; LINE_ROOM],
            start: LINE_ROOM,
        }
    }

    pub(crate) fn bytes(&self) -> &[u8]
        ensures { result.now ≡ self.now }
    {
        &self.bytes[self.start..]
    }

    /// Makes the line of a lemma in place of what is there, with its line feed; of a line with a plan what stands before
    /// the plan's members.
    pub(crate) fn make_lemma(
        &mut self,
        number: u32,
        path: &[Column],
        claim: Claim,
        reason: &ReasonView<'_>,
    )
        requires { length path.now ≤ longest_path }
        ensures { self.new ++ behind_word (reason_viewed reason.now) ≡ lemma_line (record { number = number; path = path.now; claim = claim; reason = reason_viewed reason.now }) }
    {
        self.clear();
        self.put_reason(reason);
        self.put_text(claim_word(claim));
        self.put_byte(b' ');
        self.put_path(path);
        self.put_byte(b' ');
        self.put_number(number);
    }

    fn clear(&mut self)
        ensures { self.new ≡ [] }
    {
        self.start = LINE_ROOM;
    }

    /// The words of a reason, with a space before each, and the line feed; of a plan its first word alone.
    fn put_reason(&mut self, reason: &ReasonView<'_>)
        requires { self.old ≡ [] }
        ensures line { self.new ++ behind_word (reason_viewed reason.now) ≡ behind_spaces (reason_words (reason_viewed reason.now)) ++ 10 ∷ [] }
        ensures bound { length self.new ≤ 141 }
    {
        match reason {
            Reason::Ended => self.put_text(b" end\n"),
            Reason::One(cite) => self.put_one(*cite),
            Reason::All(cites) => self.put_all(cites.as_slice()),
            Reason::Plan(_) => self.put_text(b" plan"),
            Reason::Mirror(lemma) => self.put_mirror(*lemma),
        }
    }

    fn put_mirror(&mut self, lemma: u32)
        requires { self.old ≡ [] }
        ensures line { self.new ≡ codes " mirror " ++ (decimal lemma ++ 10 ∷ []) }
        ensures bound { length self.new ≤ 19 }
    {
        self.put_byte(b'\n');
        self.put_number(lemma);
        self.put_text(b" mirror ");
    }

    fn put_one(&mut self, cite: Cite)
        requires { self.old ≡ [] }
        ensures line { self.new ≡ codes " one " ++ (letter_of cite.column ∷ (32 ∷ (decimal cite.lemma ++ 10 ∷ []))) }
        ensures bound { length self.new ≤ 18 }
    {
        self.put_byte(b'\n');
        self.put_number(cite.lemma);
        self.put_byte(b' ');
        self.put_byte(letter_of(cite.column));
        self.put_text(b" one ");
    }

    fn put_all(&mut self, cites: &[Cite])
        requires few { length cites.now ≤ most_cites }
        requires empty { self.old ≡ [] }
        ensures line { self.new ≡ codes " all" ++ (cite_words cites.now ++ 10 ∷ []) }
        ensures bound { length self.new ≤ 141 }
    {
        self.put_byte(b'\n');
        let mut index = cites.len();
        while index > 0 {
            index -= 1;
            self.put_cite(cites[index]);
        }
        self.put_text(b" all");
    }

    /// A space, then the letter of the cite's column, a colon and its lemma's number.
    fn put_cite(&mut self, cite: Cite)
        requires { length self.old + 13 ≤ line_room }
        ensures line { self.new ≡ 32 ∷ (cite_word (cite_of cite) ++ self.old) }
        ensures bound { length self.new ≤ length self.old + 13 }
    {
        self.put_number(cite.lemma);
        self.put_byte(b':');
        self.put_byte(letter_of(cite.column));
        self.put_byte(b' ');
    }

    /// The letters of the columns, or `-` for none.
    fn put_path(&mut self, path: &[Column])
        requires short { length path.now ≤ longest_path }
        requires room { length self.old + longest_path ≤ line_room }
        ensures line { self.new ≡ move_list path.now ++ self.old }
        ensures bound { length self.new ≤ length self.old + longest_path }
    {
        if path.is_empty() {
            self.put_byte(b'-');
            return;
        }
        let start = self.start - path.len();
        write_letters(&mut self.bytes[start..self.start], path);
        self.start = start;
    }

    /// Puts a number in decimal.
    fn put_number(&mut self, number: u32)
        requires { length self.old + 10 ≤ line_room }
        ensures line { self.new ≡ decimal number ++ self.old }
        ensures bound { length self.new ≤ length self.old + 10 }
    {
        let mut digits = Buffer::new();
        self.put_text(digits.format(number).as_bytes());
    }

    fn put_text(&mut self, text: &[u8])
        requires { length self.old + length text.now ≤ line_room }
        ensures line { self.new ≡ text.now ++ self.old }
        ensures bound { length self.new ≡ length text.now + length self.old }
    {
        let start = self.start - text.len();
        self.bytes[start..self.start].copy_from_slice(text);
        self.start = start;
    }

    fn put_byte(&mut self, byte: u8)
        requires { length self.old + 1 ≤ line_room }
        ensures { self.new ≡ byte ∷ self.old }
    {
        self.start -= 1;
        self.bytes[self.start] = byte;
    }
}

/// Writes the columns' letters over the bytes. They are as many.
fn write_letters(bytes: &mut [u8], path: &[Column])
    requires { length bytes.old ≡ length path.now }
    ensures { bytes.new ≡ map letter_of path.now }
{
    for index in 0..path.len() {
        bytes[index] = letter_of(path[index]);
    }
}
