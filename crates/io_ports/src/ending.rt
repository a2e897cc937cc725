//! The end of a program's output, where bytes are still held back: they are sent, and a fault then is reported as any
//! other write fault. A drop would send them too, but nobody would hear of its fault.
ghost use Rattle.std.specs.Prelude.{◌≡◌, ◌≢◌, ◌⊎◌, [], codes};
ghost use Rattle.std.specs.Io.KnownBytes.{Keeps};
ghost use Rattle.std.specs.Io.Buffered.{writer_buffer, writer_contents};
ghost use Rattle.device_rules.specs.Devices.{Reports, Rose};

use crate::{Sink, StdSink, put_all};
use std::io::{BufWriter, Write};

/// The exit status where writing failed.
pub const WRITE_FAULT: u8 = 7;

/// What the error stream is given where writing failed.
pub const WRITE_FAULT_TEXT: &[u8] = b"write fault\n";

/// Ends the output of a run with this status, and gives the status of the program: the same, or [`WRITE_FAULT`]. What is
/// still held back is sent, unless a write has failed already; where sending fails, that is a write fault as any other,
/// and its text goes to `err`, whole unless the count of faults of `err` rose. Nothing else is written to either.
///
/// With any other status than that of a write fault nothing is held back any more, so that a drop has nothing to write.
pub fn finish<W: Write + Drop, E: Sink>(
    status: u8,
    out: &mut StdSink<BufWriter<W>>,
    err: &mut E,
) -> u8
    ensures kept { (result ≡ status) ⊎ ((status ≢ 7) × (result ≡ 7) × Rose out.old.faults out.new.faults
        × Reports (E.faults err.old) (E.faults err.new) (E.written err.old) (E.written err.new) (codes "write fault\n")) }
    ensures quiet { result ≡ status → err.new ≡ err.old }
    ensures sent { result ≢ 7 → writer_buffer out.new.inner ≡ [] }
    ensures bytes { Keeps (writer_contents W.contents out.old.inner) (writer_contents W.contents out.new.inner) }
    ensures stays { status ≡ 7 → out.new ≡ out.old }
{
    if status == WRITE_FAULT || out.send().is_ok() {
        return status;
    }
    report(err);
    WRITE_FAULT
}

/// Reports a write fault. Where that fails too, no more is tried.
fn report<E: Sink>(err: &mut E)
    ensures { Reports (E.faults err.old) (E.faults err.new) (E.written err.old) (E.written err.new) (codes "write fault\n") }
{
    let _ = put_all(err, WRITE_FAULT_TEXT);
}
