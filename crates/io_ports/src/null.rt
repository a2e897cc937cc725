//! A sink for those who want a command's answer and not its text. It doesn't tell its bytes, since it keeps none.
ghost use Rattle.std.specs.Prelude.{◌≡◌, None, Ok, length, ◌<◌, ◌≤◌, IfOk, IsOk};
ghost use Rattle.std.specs.Io.KnownBytes.{WriteAppends, Keeps};
ghost use Rattle.device_rules.specs.Devices.{HasCause};

use crate::{Failed, Sink};

/// A sink that takes every byte and keeps none. It never fails.
#[derive(Clone, Copy, Debug, Default)]
pub struct NullSink;

impl Sink for NullSink {
    ghost written = { λ _. None };

    ghost faults = { λ _. 0 };

    fn write(&mut self, piece: &[u8]) -> Result<usize, Failed>
        requires { 0 < length piece.now }
        ensures within { IfOk result (λ n. (1 ≤ n) × (n ≤ length piece.now)) }
        ensures bytes { WriteAppends None None result piece.now }
        ensures cause { HasCause 0 0 result }
        ensures whole { result ≡ Ok (length piece.now) }
    {
        Ok(piece.len())
    }

    fn flush(&mut self) -> Result<(), Failed>
        ensures bytes { Keeps None None }
        ensures cause { HasCause 0 0 result }
        ensures done { IsOk result }
    {
        Ok(())
    }
}
