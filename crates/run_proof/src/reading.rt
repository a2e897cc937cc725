//! A whole proof, of which nothing is written while it is read.
ghost use Rattle.std.specs.Prelude.{◌≡◌, ◌≤◌, [], List, Err, IfErr};
ghost use Rattle.device_rules.specs.Devices.{Rose};
ghost use Rattle.game_rules.specs.Position.{Position as Men};
ghost use Rattle.proof_text.specs.Lemma.{Lemma};
ghost use Rattle.run_frame.specs.Streams.{streams};
ghost use Rattle.run_proof.specs.Judged.{Judges};
ghost use Rattle.run_proof.specs.Stops.{IsCausedBy};

use crate::head::{Head, read_head};
use crate::lines::{Until, read_lines};
use crate::stop::ProofStop;
use crate::taker::LemmaTaker;
use cert_checker::Accepted;
use cert_format::Version;
use io_ports::{Lines, Sink, Source};
use run_frame::RunStop;
use std::alloc::Global;

/// What was read of a proof that is right: its head, and what it says.
#[derive(Drop)]
pub struct ProofRead {
    pub head: Head,
    pub accepted: Accepted,
}

/// Reads a proof to its end, or to what stops the reading: the first line that is refused, a game that is none, a source
/// that failed, or a lemma for which memory ran out. An accepted proof is right, and what it says is true. It has to be of the
/// version that is asked for, or of either. The taker, which has got no lemma before and puts nothing, gets each after it was
/// accepted, in their order.
pub fn read_proof<S: Source, T: LemmaTaker, O: Sink>(
    alloc: Global,
    asked: Option<Version>,
    source: &mut S,
    taker: &mut T,
    out: &mut O,
) -> Result<ProofRead, RunStop<ProofStop>>
    requires none { (root : Men) → T.holds taker.old root [] }
    requires silent { (root : Men) (ls : List Lemma) (l : Lemma) → T.puts root ls l ≡ [] }
    ensures judged { Judges asked (T.holds taker.new) (streams S.left S.last_read O.written source.old source.new out.old out.new) result }
    ensures later { O.faults out.old ≤ O.faults out.new }
    ensures cause { IfErr result (IsCausedBy (Rose (S.faults source.old) (S.faults source.new)) (Rose (O.faults out.old) (O.faults out.new))) }
{
    let mut lines = Lines::new();
    let head = read_head(asked, &mut lines, source)?;
    let read = read_lines(alloc, &head, Until::End, &mut lines, source, taker, out)?;
    Ok(ProofRead {
        head,
        accepted: read.accepted,
    })
}
