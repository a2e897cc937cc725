//! The two traits that all else is written over. What a device holds is told by ghost members, so that one contract
//! serves a device that tells its bytes, as those in memory do, and one that can't, as a terminal.
ghost use Rattle.std.specs.Prelude.{ℕ, List, Option, length, ◌<◌, ◌≤◌, IfOk};
ghost use Rattle.std.specs.Io.KnownBytes.{ReadConsumes, WriteAppends, Keeps};
ghost use Rattle.device_rules.specs.Devices.{CountsRead, HasCause};

/// The answer of a device that failed.
#[derive(Clone, Copy, Debug, PartialEq, Eq)]
pub struct Failed;

/// A source of bytes.
pub trait Source {
    /// The bytes that are left, where the source tells them. One that tells them tells them after every call.
    ghost left: { Self → Option (List ℕ) };

    /// How often it has failed.
    ghost faults: { Self → ℕ };

    /// How many bytes its last read gave that didn't fail.
    ghost last_read: { Self → ℕ };

    /// Puts the next bytes at the start of the buffer, and answers how many: none only where no byte is left, which
    /// is the end of the input. `Failed` is answered only where the count of faults rose, and no byte is taken then.
    fn read(&mut self, buf: &mut [u8]) -> Result<usize, Failed>
        requires { 0 < length buf.old }
        ensures within { IfOk result (λ n. n ≤ length buf.new) }
        ensures bytes { ReadConsumes (left self.old) (left self.new) result buf.new }
        ensures cause { HasCause (faults self.old) (faults self.new) result }
        ensures last_read { CountsRead (last_read self.old) (last_read self.new) result };
}

/// A sink of bytes.
pub trait Sink {
    /// The bytes written so far, where the sink tells them. One that tells them tells them after every call.
    ghost written: { Self → Option (List ℕ) };

    /// How often it has failed.
    ghost faults: { Self → ℕ };

    /// Appends a prefix of the piece, and answers its length, which is at least one. `Failed` is answered only where the
    /// count of faults rose, and nothing is appended then.
    fn write(&mut self, piece: &[u8]) -> Result<usize, Failed>
        requires { 0 < length piece.now }
        ensures within { IfOk result (λ n. (1 ≤ n) × (n ≤ length piece.now)) }
        ensures bytes { WriteAppends (written self.old) (written self.new) result piece.now }
        ensures cause { HasCause (faults self.old) (faults self.new) result };

    /// Hands on what was written. It changes no byte, and fails only where the count of faults rose.
    fn flush(&mut self) -> Result<(), Failed>
        ensures bytes { Keeps (written self.old) (written self.new) }
        ensures cause { HasCause (faults self.old) (faults self.new) result };
}
