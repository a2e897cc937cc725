//! The bytes that a reader of lines took from its source and hasn't given up, in a buffer of fixed size. They are moved to
//! its start before more are taken, which is only where they are no more than the beginning of a line.
ghost use Rattle.std.specs.Prelude.{◌≡◌, ◌↔◌, [], ◌+◌, ◌-◌, slice_range, ◌<◌, ◌≤◌, true, length, take, drop, IfOk, OnErr, OnOk};
ghost use Rattle.std.specs.Io.KnownBytes.{IsAtEnd};
ghost use Rattle.io_ports.specs.Lines.{IsUndecided, IsWithinRead, Moves, line_len};
ghost use Rattle.device_rules.specs.Devices.{CountsRead, HasCause};

use crate::{Failed, Source};
use bstr::ByteSlice;
use std::marker::Model;

/// The most bytes that a line may have.
pub(crate) const LONGEST: usize = 8192;

const CAPACITY: usize = 2 * LONGEST;

#[derive(Drop)]
pub(crate) struct Ahead {
    buffer: [u8; CAPACITY],
    start: usize,
    end: usize,
}

impl Model for Ahead {
    ghost use Rattle.std.specs.Prelude.{ℕ, List, slice_range, ◌≤◌};
    ghost use Rattle.io_ports.specs.declared.ahead.TheConstants.{CAPACITY};

    ghost Value = { List ℕ };

    ghost view = { λ ahead. slice_range ahead.buffer ahead.start ahead.end };

    ghost invariant = { λ ahead. (ahead.start ≤ ahead.end) × (ahead.end ≤ CAPACITY) };
}

impl Ahead {
    pub(crate) fn new() -> Ahead
        ensures { result ≡ [] }
    {
        Ahead {
            buffer: [0; CAPACITY],
            start: 0,
            end: 0,
        }
    }

    pub(crate) fn bytes(&self) -> &[u8]
        ensures bytes { result.now ≡ self.now }
        ensures held { length self.now ≤ CAPACITY }
    {
        &self.buffer[self.start..self.end]
    }

    /// How many bytes stand before the first line feed, or in all. None of the first `searched` is one.
    pub(crate) fn line_len(&self, searched: usize) -> usize
        requires within { searched ≤ length self.now }
        requires unfed { line_len (take searched self.now) ≡ searched }
        ensures { result ≡ line_len self.now }
    {
        let held = self.bytes();
        match (&held[searched..]).find_byte(b'\n') {
            Some(at) => searched + at,
            None => held.len(),
        }
    }

    /// Whether more may come of the line of which `len` bytes are held: they are all that is held, and no more than a
    /// line may have.
    pub(crate) fn is_undecided(&self, len: usize) -> bool
        ensures more { result ≡ true ↔ (len ≡ length self.now) × (len ≤ LONGEST) }
        ensures held { length self.now ≤ CAPACITY }
    {
        len == self.bytes().len() && len <= LONGEST
    }

    /// Gives up the first bytes.
    pub(crate) fn skip(&mut self, count: usize)
        requires { count ≤ length self.old }
        ensures { self.new ≡ drop count self.old }
    {
        self.start += count;
    }

    /// Takes more bytes from the source behind those held, and answers how many: none at the end of the input.
    pub(crate) fn fill<S: Source>(&mut self, source: &mut S) -> Result<usize, Failed>
        requires { length self.old ≤ LONGEST }
        ensures moves { Moves (S.left source.old) (S.left source.new) self.old self.new }
        ensures count { IfOk result (λ n. length self.new ≡ length self.old + n) }
        ensures last_read { CountsRead (S.last_read source.old) (S.last_read source.new) result }
        ensures few { IsUndecided self.old → OnOk result (IsWithinRead (S.last_read source.new) self.new) }
        ensures end { IfOk result (λ n. n ≡ 0 → IsAtEnd (S.left source.new)) }
        ensures refused { OnErr result (self.new ≡ self.old) }
        ensures held { length self.new ≤ CAPACITY }
        ensures cause { HasCause (S.faults source.old) (S.faults source.new) result }
    {
        let (start, end) = (self.start, self.end);
        let held = end - start;
        move_to_start(&mut self.buffer, start, end);
        self.start = 0;
        self.end = held;
        let count = source.read(&mut self.buffer[held..])?;
        self.end = held + count;
        Ok(count)
    }
}

/// Moves the bytes between two places to the start of the buffer.
fn move_to_start(buffer: &mut [u8; CAPACITY], start: usize, end: usize)
    requires ordered { start ≤ end }
    requires within { end ≤ CAPACITY }
    ensures { slice_range buffer.new 0 (end - start) ≡ slice_range buffer.old start end }
{
    if start == 0 {
        return;
    }
    buffer.copy_within(start..end, 0);
}
