//! Who takes the lemmas of a proof as it is read: a command that only judges keeps none of them, others keep them in a
//! book or write what becomes of them as they come.
ghost use Rattle.std.specs.Prelude.{◌≡◌, ◌≤◌, [], ◌∷◌, ◌++◌, List, ℕ, Err, IfErr};
ghost use Rattle.device_rules.specs.Devices.{Rose};
ghost use Rattle.game_rules.specs.Position.{Position as Men};
ghost use Rattle.proof_text.specs.Lemma.{Lemma};
ghost use Rattle.proof_book.specs.Shape.{lemma_viewed, viewed};
ghost use Rattle.run_proof.specs.Taken.{IsBehind, IsNext, Takes, MayTake, IsLineBehind, TakesLine};
ghost use Rattle.run_proof.specs.Stops.{IsCausedBy};
ghost use Rattle.run_proof.specs.declared.taker.NotTaken.TheVariants as untaken;

use crate::stop::ProofStop;
use board_bits::Position;
use io_ports::{Failed, Sink};
use proof_book::{Book, LemmaView, LineView};
use run_frame::RunStop;
use std::alloc::AllocError;

/// Why a lemma was not taken.
#[derive(Clone, Copy)]
pub enum NotTaken {
    /// Memory ran out.
    Memory,
    /// The sink of the output failed, which comes only where its count of faults rose.
    Write,
}

impl From<AllocError> for NotTaken {
    ghost from_gives = { λ failed why. why ≡ untaken.Memory };

    fn from(_failed: AllocError) -> NotTaken {
        NotTaken::Memory
    }
}

impl From<Failed> for NotTaken {
    ghost from_gives = { λ failed why. why ≡ untaken.Write };

    fn from(_failed: Failed) -> NotTaken {
        NotTaken::Write
    }
}

/// Takes the lemmas of a proof, each after it was accepted.
pub trait LemmaTaker {
    /// It has got these lemmas of a game from this position, in their order.
    ghost holds: { Self → Men → List Lemma → Type 0 };

    /// What it puts for a lemma of such a game behind these.
    ghost puts: { Men → List Lemma → Lemma → List ℕ };

    /// Takes the lemma with the next number, which has a spelling and stands at this position, and puts what becomes of it.
    /// Where memory runs out it has those that it had. `Write` comes only where something is to be put.
    fn take<O: Sink>(
        &mut self,
        lemma: &LemmaView<'_>,
        position: &Position,
        out: &mut O,
    ) -> Result<(), NotTaken>
        requires next { IsNext (holds self.old) (lemma_viewed lemma.now) position.now }
        ensures taken { (root : Men) (ls : List Lemma) → holds self.old root ls → IsBehind root ls (lemma_viewed lemma.now) position.now
            → Takes (holds self.new) puts root ls (lemma_viewed lemma.now) (O.written out.old) (O.written out.new) result }
        ensures later { O.faults out.old ≤ O.faults out.new }
        ensures cause { result ≡ Err untaken.Write → Rose (O.faults out.old) (O.faults out.new) };
}

/// A taker that keeps nothing, and puts nothing.
#[derive(Clone, Copy)]
pub struct KeepsNone;

impl LemmaTaker for KeepsNone {
    ghost use Rattle.std.specs.Prelude.{[], ⊤};

    ghost holds = { λ _ root ls. ⊤ };

    ghost puts = { λ root ls l. [] };

    fn take<O: Sink>(
        &mut self,
        _lemma: &LemmaView<'_>,
        _position: &Position,
        _out: &mut O,
    ) -> Result<(), NotTaken> {
        Ok(())
    }
}

/// A book keeps each lemma whole, and puts nothing.
impl LemmaTaker for Book {
    ghost use Rattle.std.specs.Prelude.{◌≡◌, []};

    ghost holds = { λ book root ls. book ≡ ls };

    ghost puts = { λ root ls l. [] };

    fn take<O: Sink>(
        &mut self,
        lemma: &LemmaView<'_>,
        _position: &Position,
        _out: &mut O,
    ) -> Result<(), NotTaken> {
        self.keep_view(lemma)?;
        Ok(())
    }
}

/// Hands an accepted line to the taker, where it is a lemma, which then stands at this position.
pub(crate) fn take_line<T: LemmaTaker, O: Sink>(
    taker: &mut T,
    line: &LineView<'_>,
    position: &Position,
    out: &mut O,
) -> Result<(), RunStop<ProofStop>>
    requires { MayTake (T.holds taker.old) (viewed line.now) position.now }
    ensures taken { (root : Men) (ls : List Lemma) → T.holds taker.old root ls → IsLineBehind root ls (viewed line.now) position.now
        → TakesLine (T.holds taker.new) T.puts root ls (viewed line.now) (O.written out.old) (O.written out.new) result }
    ensures later { O.faults out.old ≤ O.faults out.new }
    ensures cause { IfErr result (IsCausedBy ⊥ (Rose (O.faults out.old) (O.faults out.new))) }
{
    match line {
        LineView::Lemma(lemma) => match taker.take(lemma, position, out) {
            Ok(()) => Ok(()),
            Err(NotTaken::Memory) => Err(RunStop::Own(ProofStop::Memory)),
            Err(NotTaken::Write) => Err(RunStop::Write),
        },
        LineView::Remark | LineView::Verdict(_) => Ok(()),
    }
}
