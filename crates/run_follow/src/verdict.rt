//! A proof up to its verdict: it is read and judged as every proof is, and each lemma is kept in a book.
ghost use Rattle.std.specs.Prelude.{◌≡◌, ◌≤◌, [], IfOk, IfErr};
ghost use Rattle.std.specs.Io.KnownBytes.{Keeps};
ghost use Rattle.device_rules.specs.Devices.{Rose};
ghost use Rattle.io_ports.specs.Reading.{pending, Reads};
ghost use Rattle.run_proof.specs.Stops.{IsCausedBy};
ghost use Rattle.run_follow.specs.Reading.{IsRightProof, ReadsProof, IsWithin};

use board_bits::Position;
use io_ports::{Lines, Sink, Source};
use proof_text::Verdict;
use run_frame::RunStop;
use run_proof::{Book, ProofStop, Until, read_head, read_lines};
use std::alloc::Global;

/// A proof that is right up to its verdict: its game's position, the verdict, and the number of its line.
#[derive(Drop)]
pub(crate) struct ToVerdict {
    pub(crate) root: Position,
    pub(crate) verdict: Verdict,
    pub(crate) at: u64,
}

/// Reads a proof up to its verdict, or to what stops the reading. The book, which has no lemma before, keeps its lemmas. Nothing is
/// written, so the sink doesn't fail.
pub(crate) fn read_to_verdict<S: Source, O: Sink>(
    alloc: Global,
    book: &mut Book,
    lines: &mut Lines,
    source: &mut S,
    out: &mut O,
) -> Result<ToVerdict, RunStop<ProofStop>>
    requires { book.old ≡ [] }
    ensures answer { Reads (pending lines.old (S.left source.old) (S.last_read source.old))
        (pending lines.new (S.left source.new) (S.last_read source.new)) (ReadsProof book.new (S.faults source.old) (S.faults source.new) result) }
    ensures right { IfOk result (λ proof. IsRightProof proof.root book.new proof.verdict) }
    ensures few { IsWithin result }
    ensures kept { Keeps (O.written out.old) (O.written out.new) }
    ensures later { (S.faults source.old ≤ S.faults source.new) × (O.faults out.old ≤ O.faults out.new) }
    ensures cause { IfErr result (IsCausedBy (Rose (S.faults source.old) (S.faults source.new)) (Rose (O.faults out.old) (O.faults out.new))) }
{
    let head = read_head(None, lines, source)?;
    let read = read_lines(alloc, &head, Until::Verdict, lines, source, book, out)?;
    Ok(ToVerdict {
        root: *head.game.position(),
        verdict: read.accepted.verdict,
        at: read.end - 1,
    })
}
