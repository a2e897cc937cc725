//! The command, over any source and any sink.
ghost use Rattle.std.specs.Prelude.{◌≡◌, is_ok};
ghost use Rattle.device_rules.specs.Devices.{Rose, HasCause, AppendsPrefix};
ghost use Rattle.run_check.specs.Checks.{accepted_line, CheckOwes};
ghost use Rattle.run_frame.specs.Streams.{streams};

use crate::checked::Checked;
use io_ports::{Failed, Sink, Source};
use run_frame::{LineText, push_number, push_text, put_line};
use run_proof::{Accepted, KeepsNone, read_proof};
use std::alloc::Global;

/// Reads a proof of either version, and writes one line where it is right. It ends as the definitions answer the text, unless a stream
/// failed, which comes only where its count of faults rose, or memory ran out.
pub fn check<S: Source, O: Sink>(alloc: Global, source: &mut S, out: &mut O) -> Checked
    ensures { CheckOwes (streams S.left S.last_read O.written source.old source.new out.old out.new)
        (Rose (S.faults source.old) (S.faults source.new)) (Rose (O.faults out.old) (O.faults out.new)) result }
{
    let proof = read_proof(alloc, None, source, &mut KeepsNone, out)?;
    put_accepted(out, proof.accepted)?;
    Ok(())
}

/// Writes that a proof is accepted.
fn put_accepted<O: Sink>(out: &mut O, accepted: Accepted) -> Result<(), Failed>
    ensures written { AppendsPrefix (is_ok result) (O.written out.old) (O.written out.new) (accepted_line accepted.verdict accepted.lemmas) }
    ensures cause { HasCause (O.faults out.old) (O.faults out.new) result }
{
    put_line(out, accepted_line(accepted).as_slice())
}

/// The line for a proof that is accepted, with its line feed.
fn accepted_line(accepted: Accepted) -> LineText
    ensures { result.items ≡ accepted_line accepted.verdict accepted.lemmas }
{
    let mut line = LineText::new();
    push_text(&mut line, b"accepted ");
    push_text(&mut line, accepted.verdict.word());
    line.push(b' ');
    push_number(&mut line, accepted.lemmas);
    line.push(b'\n');
    line
}
