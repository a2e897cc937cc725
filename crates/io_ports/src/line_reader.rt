//! The lines of a source, one at a time, in buffers of fixed size: an input of any length is read in the memory that
//! the reader itself has. What the next line is depends on the bytes alone and not on how the source cuts them, and a
//! fault of the source loses none of them.
ghost use Rattle.std.specs.Prelude.{◌≡◌, ◌≢◌, ◌<◌, ◌≤◌, [], ◌++◌, true, false, length, All, IfOk, OnErr, OnOk};
ghost use Rattle.std.specs.Io.KnownBytes.{IsAtEnd};
ghost use Rattle.device_rules.specs.Devices.{HasCause, Rose};
ghost use Rattle.io_ports.specs.Lines.{EachTextIsCut, Gives, Takes, Moves, HoldsFew, IsAhead, IsUndecided, IsWithinRead, is_end, line_len, longest_line, most_held};
ghost use Rattle.io_ports.specs.Reading.{Reads, pending};

use crate::ahead::{Ahead, LONGEST};
use crate::{Failed, Source};
use std::marker::Model;

/// What a reader of lines has got.
#[derive(Clone, Copy, Debug, PartialEq, Eq)]
pub enum LineGot {
    /// The next line.
    Line,
    /// More than 8,192 bytes come without a line feed. The reader stays where it is.
    Long,
    /// The input ended, and no byte of a line is left.
    Done,
    /// The source failed. The bytes that were taken so far are kept, and the next call goes on with them.
    Failed,
}

/// A reader of the lines of an input, up to its end. A terminal may give more behind what it called its end; what was
/// taken by then decides, so nothing is read behind it.
#[derive(Drop)]
pub struct Lines {
    ahead: Ahead,
    given: usize,
    text: usize,
    fed: bool,
    ended: bool,
}

impl Model for Lines {
    ghost use Rattle.std.specs.Prelude.{◌≡◌, ◌≤◌, true, [], length, take, drop};
    ghost use Rattle.io_ports.specs.Lines.{Cutting};

    ghost Value = { Cutting };

    ghost view = { λ lines. record {
      ended = lines.ended;
      ahead = drop lines.given lines.ahead;
      text = take lines.text lines.ahead;
      fed = lines.fed;
    } };

    ghost invariant = { λ lines. (lines.given ≤ length lines.ahead) × (lines.text ≤ length lines.ahead)
        × (lines.ended ≡ true → drop lines.given lines.ahead ≡ []) };
}

impl Lines {
    /// A reader that has taken nothing yet.
    pub fn new() -> Lines
        ensures { result ≡ record { ended = false; ahead = []; text = []; fed = false } }
    {
        Lines {
            ahead: Ahead::new(),
            given: 0,
            text: 0,
            fed: false,
            ended: false,
        }
    }

    /// Gets the next line of the source: `text` lends it, and `fed` says whether a line feed ended it. After `Done` and
    /// after `Failed`, which comes only where the source's count of faults rose, `text` lends no byte. The source is asked
    /// only while what is held doesn't decide the next line: no whole line waits for more of the input, and behind a line
    /// that was read no more is held than what the last read gave. Behind the end of the input, which is the last line
    /// without a line feed, or `Done`, there is no line, and nothing is read.
    #[inline(always)]
    pub fn next<S: Source>(&mut self, source: &mut S) -> LineGot
        ensures gives { Reads (pending self.old (S.left source.old) (S.last_read source.old))
            (pending self.new (S.left source.new) (S.last_read source.new))
            (λ bytes rest. Gives bytes rest result self.new.text self.new.fed) }
        ensures ended { self.new.ended ≡ is_end result self.new.fed }
        ensures held { length self.new.ahead ≤ most_held }
        ensures few { HoldsFew (S.last_read source.old) self.old.ahead → IsAhead result (S.last_read source.new) self.new.ahead }
        ensures done { result ≡ LineGot.Done → self.new.text ≡ [] }
        ensures kept { result ≡ LineGot.Failed → (self.new.text ≡ []) × (self.new.fed ≡ false) }
        ensures waiting { result ≡ LineGot.Failed → IsUndecided self.new.ahead }
        ensures short { length self.new.text ≤ longest_line }
        ensures no_feed { All (λ b. b ≢ 10) self.new.text }
        ensures later { S.faults source.old ≤ S.faults source.new }
        ensures failed { result ≡ LineGot.Failed → Rose (S.faults source.old) (S.faults source.new) }
    {
        if self.ended {
            self.text = 0;
            self.fed = false;
            return LineGot::Done;
        }
        let got = self.cut(source);
        self.ended = is_end(got, self.fed);
        got
    }

    /// Gets the next line where the end of the input wasn't reached.
    fn cut<S: Source>(&mut self, source: &mut S) -> LineGot
        requires going { self.old.ended ≡ false }
        ensures gives { Takes (is_end result self.new.fed) (S.left source.old) (S.left source.new)
            (λ bytes rest. Gives (self.old.ahead ++ bytes) (self.new.ahead ++ rest) result self.new.text self.new.fed) }
        ensures going { self.new.ended ≡ false }
        ensures held { length self.new.ahead ≤ most_held }
        ensures few { HoldsFew (S.last_read source.old) self.old.ahead → IsAhead result (S.last_read source.new) self.new.ahead }
        ensures done { result ≡ LineGot.Done → self.new.text ≡ [] }
        ensures kept { result ≡ LineGot.Failed → (self.new.text ≡ []) × (self.new.fed ≡ false) }
        ensures waiting { result ≡ LineGot.Failed → IsUndecided self.new.ahead }
        ensures short { length self.new.text ≤ longest_line }
        ensures no_feed { All (λ b. b ≢ 10) self.new.text }
        ensures later { S.faults source.old ≤ S.faults source.new }
        ensures failed { result ≡ LineGot.Failed → Rose (S.faults source.old) (S.faults source.new) }
    {
        self.ahead.skip(self.given);
        self.given = 0;
        self.text = 0;
        self.fed = false;
        let Ok(len) = gather(&mut self.ahead, source) else {
            return LineGot::Failed;
        };
        let held = self.ahead.bytes().len();
        if held == 0 {
            return LineGot::Done;
        }
        if len > LONGEST {
            self.text = LONGEST;
            return LineGot::Long;
        }
        self.text = len;
        self.fed = len < held;
        self.given = held.min(len + 1);
        LineGot::Line
    }

    /// The line that the last call of `next` got, without its line feed, or the first 8,192 bytes of one that is too
    /// long. No byte where there was none.
    pub fn text(&self) -> &[u8]
        ensures { result.now ≡ self.now.text }
    {
        &self.ahead.bytes()[..self.text]
    }

    /// Whether a line feed ended that line.
    pub fn fed(&self) -> bool
        ensures { result ≡ self.now.fed }
    {
        self.fed
    }
}

/// Whether what was got ends the input: no line, or one that no line feed ended.
fn is_end(got: LineGot, fed: bool) -> bool
    ensures { result ≡ is_end got fed }
{
    match got {
        LineGot::Line => !fed,
        LineGot::Done => true,
        LineGot::Long | LineGot::Failed => false,
    }
}

/// Reads until what is held decides the next line: a line feed stands in it, it is too long for a line, or it is all
/// that is left. The answer is how many bytes stand before the line feed, or in all.
fn gather<S: Source>(ahead: &mut Ahead, source: &mut S) -> Result<usize, Failed>
    ensures len { IfOk result (λ n. n ≡ line_len ahead.new) }
    ensures whole { IfOk result (λ n. n ≡ length ahead.new → n ≤ LONGEST → IsAtEnd (S.left source.new)) }
    ensures moves { Moves (S.left source.old) (S.left source.new) ahead.old ahead.new }
    ensures waiting { OnErr result (IsUndecided ahead.new) }
    ensures held { length ahead.new ≤ most_held }
    ensures few { OnOk result (IsWithinRead (S.last_read source.old) ahead.old → IsWithinRead (S.last_read source.new) ahead.new) }
    ensures cause { HasCause (S.faults source.old) (S.faults source.new) result }
{
    let len = ahead.line_len(0);
    if !ahead.is_undecided(len) {
        return Ok(len);
    }
    gather_more(ahead, source)
}

/// The same where the bytes held mostly don't decide the next line. It stands apart, since few lines come to it.
#[cold]
#[inline(never)]
fn gather_more<S: Source>(ahead: &mut Ahead, source: &mut S) -> Result<usize, Failed>
    ensures len { IfOk result (λ n. n ≡ line_len ahead.new) }
    ensures whole { IfOk result (λ n. n ≡ length ahead.new → n ≤ LONGEST → IsAtEnd (S.left source.new)) }
    ensures moves { Moves (S.left source.old) (S.left source.new) ahead.old ahead.new }
    ensures waiting { OnErr result (IsUndecided ahead.new) }
    ensures held { length ahead.new ≤ most_held }
    ensures few { OnOk result (IsWithinRead (S.last_read source.old) ahead.old → IsWithinRead (S.last_read source.new) ahead.new) }
    ensures cause { HasCause (S.faults source.old) (S.faults source.new) result }
{
    let mut len = ahead.line_len(0);
    while ask(ahead, source, len)? {
        len = ahead.line_len(len);
    }
    Ok(len)
}

/// Takes more from the source where the bytes held don't decide the next line, and answers whether any came. `len` of
/// them stand before the line feed, or in all.
fn ask<S: Source>(ahead: &mut Ahead, source: &mut S, len: usize) -> Result<bool, Failed>
    requires len { len ≡ line_len ahead.old }
    ensures waiting { OnErr result (IsUndecided ahead.new) }
    ensures few { OnOk result (IsWithinRead (S.last_read source.old) ahead.old → IsWithinRead (S.last_read source.new) ahead.new) }
    ensures more { IfOk result (λ more. more ≡ true → IsUndecided ahead.old × (length ahead.old < length ahead.new)) }
    ensures none { IfOk result (λ more. more ≡ false
        → (ahead.new ≡ ahead.old) × (IsUndecided ahead.old → IsAtEnd (S.left source.new))) }
    ensures moves { Moves (S.left source.old) (S.left source.new) ahead.old ahead.new }
    ensures held { length ahead.new ≤ most_held }
    ensures cause { HasCause (S.faults source.old) (S.faults source.new) result }
{
    if ahead.is_undecided(len) {
        return Ok(ahead.fill(source)? > 0);
    }
    Ok(false)
}

/// A law: each text has a next line, of at most 8,192 bytes and none of them a line feed, and the rest follows it.
pub fn each_text_is_cut()
    ensures { EachTextIsCut }
{}
