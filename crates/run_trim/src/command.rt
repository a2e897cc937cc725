//! The command, over any source and any sink.
ghost use Rattle.std.specs.Prelude.{◌≡◌, length};
ghost use Rattle.device_rules.specs.Devices.{Rose};
ghost use Rattle.tool_text.specs.Trim.{CitesEarlier, numbers_named};
ghost use Rattle.proof_tools.specs.Reach.{AreWithin};
ghost use Rattle.run_frame.specs.Streams.{streams};
ghost use Rattle.run_trim.specs.Trims.{trimmed_status, PutsTrimmed, TrimOwes};

use crate::trimmed::Trimmed;
use crate::writing::write_trimmed;
use io_ports::{Failed, Sink, Source};
use proof_tools::reached;
use run_frame::{MemoryStop, RunStop};
use run_proof::{Book, ProofRead, read_proof};
use std::alloc::Global;

/// Reads a proof of either version, and writes it in the same version with those lemmas alone on which its verdict rests. What is
/// refused is refused as by `check`. Nothing is written before the end of the input.
pub fn trim<S: Source, O: Sink>(alloc: Global, source: &mut S, out: &mut O) -> Trimmed
    ensures { TrimOwes (streams S.left S.last_read O.written source.old source.new out.old out.new)
        (Rose (S.faults source.old) (S.faults source.new)) (Rose (O.faults out.old) (O.faults out.new)) result }
{
    let mut book = Book::new(alloc);
    match read_proof(alloc, None, source, &mut book, out) {
        Ok(proof) => trim_proof(alloc, &proof, &book, out),
        Err(RunStop::Own(stop)) => Err(RunStop::Own(MemoryStop::Input(stop))),
        Err(RunStop::Write) => Err(RunStop::Write),
    }
}

/// Looks for the lemmas of a proof on which its verdict rests, and writes it with these.
fn trim_proof<O: Sink>(alloc: Global, proof: &ProofRead, book: &Book, out: &mut O) -> Trimmed
    requires earlier { CitesEarlier 1 book.now }
    requires named { AreWithin (length book.now) (numbers_named proof.now.accepted.verdict) }
    ensures puts { PutsTrimmed proof.now.head.version proof.now.head.game book.now proof.now.accepted.verdict (O.written out.old) (O.written out.new) result }
    ensures read { trimmed_status result ≡ 6 → ⊥ }
    ensures write_fault { trimmed_status result ≡ 7 → Rose (O.faults out.old) (O.faults out.new) }
{
    let verdict = proof.accepted.verdict;
    let Ok(reach) = reached(alloc, book, &verdict) else {
        return Err(RunStop::Own(MemoryStop::Memory));
    };
    match write_trimmed(
        proof.head.version,
        &proof.head.game,
        book,
        &reach,
        &verdict,
        out,
    ) {
        Ok(()) => Ok(()),
        Err(Failed) => Err(RunStop::Write),
    }
}
