//! A source and a sink in memory, for tests and for callers that hold their bytes. Both tell their bytes, and fail at
//! the calls that they were made to fail at, so that a table of inputs can show what a fault does. A clause sees each
//! as one record: what is left or written, and the numbered calls.
ghost use Rattle.std.specs.Prelude.{◌≡◌, [], ◌++◌, Some, length, take, drop, ◌<◌, ◌≤◌, IfOk, OnOk, OnErr, is_err};
ghost use Rattle.std.specs.Io.KnownBytes.{ReadConsumes, WriteAppends, Keeps};
ghost use Rattle.device_rules.specs.Devices.{CountsRead, HasCause};
ghost use Rattle.io_ports.specs.Memory.{fresh, next_fails, made, failed, read_count, write_count, after_read, after_write, write_fails};

use crate::calls::Calls;
use crate::{Failed, Sink, Source};
use std::alloc::{AllocError, Global};
use std::marker::Model;

/// A source in memory.
#[derive(Drop)]
pub struct MemSource {
    bytes: Vec<u8>,
    at: usize,
    piece: usize,
    last_read: usize,
    calls: Calls,
}

impl Model for MemSource {
    ghost use Rattle.std.specs.Prelude.{drop, length, ◌≤◌};
    ghost use Rattle.io_ports.specs.Memory.{Supply};

    ghost Value = { Supply };

    ghost view = { λ source. record {
      left = drop source.at source.bytes.items;
      piece = source.piece;
      last_read = source.last_read;
      calls = record { failing = source.calls.failing.items; made = source.calls.made; faults = source.calls.faults };
    } };

    ghost invariant = { λ source. (source.at ≤ length source.bytes.items) × (1 ≤ source.piece) };
}

impl MemSource {
    /// A source of these bytes, of which each read gives at most `piece`. The calls whose numbers, from 1, stand in
    /// `fail` answer `Failed`.
    pub fn new(
        alloc: Global,
        bytes: &[u8],
        piece: usize,
        fail: &[u32],
    ) -> Result<MemSource, AllocError>
        requires { 1 ≤ piece }
        ensures { IfOk result (λ source. source ≡
            record { left = bytes.now; piece = piece; last_read = 0; calls = fresh fail.now }) }
    {
        Ok(MemSource {
            bytes: Vec::from_slice(alloc, bytes)?,
            at: 0,
            piece,
            last_read: 0,
            calls: Calls::new(alloc, fail)?,
        })
    }
}

impl Source for MemSource {
    ghost left = { λ source. Some source.left };

    ghost faults = { λ source. source.calls.faults };

    ghost last_read = { λ source. source.last_read };

    fn read(&mut self, buf: &mut [u8]) -> Result<usize, Failed>
        requires { 0 < length buf.old }
        ensures within { IfOk result (λ n. n ≤ length buf.new) }
        ensures bytes { ReadConsumes (Some self.old.left) (Some self.new.left) result buf.new }
        ensures cause { HasCause self.old.calls.faults self.new.calls.faults result }
        ensures fails { is_err result ≡ next_fails self.old.calls }
        ensures last_read { CountsRead self.old.last_read self.new.last_read result }
        ensures count { IfOk result (λ n. n ≡ read_count self.old (length buf.old)) }
        ensures given { IfOk result (λ n. self.new ≡ after_read self.old n) }
        ensures filled { IfOk result (λ n. buf.new ≡ take n self.old.left ++ drop n buf.old) }
        ensures refused { OnErr result (self.new ≡ record self.old { calls = failed self.old.calls }) }
        ensures untouched { OnErr result (buf.new ≡ buf.old) }
    {
        if self.calls.next_fails() {
            self.calls.fault();
            return Err(Failed);
        }
        let left = &self.bytes[self.at..];
        let count = self.piece.min(buf.len()).min(left.len());
        buf[..count].copy_from_slice(&left[..count]);
        self.at += count;
        self.last_read = count;
        Ok(count)
    }
}

/// A sink in memory, with room for a number of bytes that it takes at once.
#[derive(Drop)]
pub struct MemSink {
    bytes: Vec<u8>,
    room: usize,
    calls: Calls,
}

impl Model for MemSink {
    ghost use Rattle.std.specs.Prelude.{vec_len, vec_capacity, ◌≤◌, ◌+◌};
    ghost use Rattle.io_ports.specs.Memory.{Store};

    ghost Value = { Store };

    ghost view = { λ sink. record {
      written = sink.bytes.items;
      room = sink.room;
      calls = record { failing = sink.calls.failing.items; made = sink.calls.made; faults = sink.calls.faults };
    } };

    ghost invariant = { λ sink. vec_len sink.bytes + sink.room ≤ vec_capacity sink.bytes };
}

impl MemSink {
    /// An empty sink with room for `room` bytes. Calls of `write` and of `flush` are numbered together, from 1, and
    /// those whose numbers stand in `fail` answer `Failed`, as does a write while no room is free.
    pub fn new(alloc: Global, room: usize, fail: &[u32]) -> Result<MemSink, AllocError>
        ensures { IfOk result (λ sink. sink ≡
            record { written = []; room = room; calls = fresh fail.now }) }
    {
        Ok(MemSink {
            bytes: Vec::with_capacity(alloc, room)?,
            room,
            calls: Calls::new(alloc, fail)?,
        })
    }

    /// What was written.
    pub fn bytes(&self) -> &[u8]
        ensures { result.now ≡ self.now.written }
    {
        &self.bytes
    }
}

impl Sink for MemSink {
    ghost written = { λ sink. Some sink.written };

    ghost faults = { λ sink. sink.calls.faults };

    fn write(&mut self, piece: &[u8]) -> Result<usize, Failed>
        requires { 0 < length piece.now }
        ensures within { IfOk result (λ n. (1 ≤ n) × (n ≤ length piece.now)) }
        ensures bytes { WriteAppends (Some self.old.written) (Some self.new.written) result piece.now }
        ensures cause { HasCause self.old.calls.faults self.new.calls.faults result }
        ensures fails { is_err result ≡ write_fails self.old }
        ensures count { IfOk result (λ n. n ≡ write_count self.old (length piece.now)) }
        ensures taken { IfOk result (λ n. self.new ≡ after_write self.old (take n piece.now)) }
        ensures refused { OnErr result (self.new ≡ record self.old { calls = failed self.old.calls }) }
    {
        if self.calls.next_fails() || self.room == 0 {
            self.calls.fault();
            return Err(Failed);
        }
        let count = piece.len().min(self.room);
        // The room was taken when the sink was made, so this can't want memory.
        self.bytes.extend_from_slice(&piece[..count]).unwrap();
        self.room -= count;
        Ok(count)
    }

    fn flush(&mut self) -> Result<(), Failed>
        ensures bytes { Keeps (Some self.old.written) (Some self.new.written) }
        ensures cause { HasCause self.old.calls.faults self.new.calls.faults result }
        ensures fails { is_err result ≡ next_fails self.old.calls }
        ensures flushed { OnOk result (self.new ≡ record self.old { calls = made self.old.calls }) }
        ensures refused { OnErr result (self.new ≡ record self.old { calls = failed self.old.calls }) }
    {
        if self.calls.next_fails() {
            self.calls.fault();
            return Err(Failed);
        }
        Ok(())
    }
}
