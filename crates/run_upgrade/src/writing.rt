//! What is written of a proof: what becomes of each lemma, and its verdict.
ghost use Rattle.std.specs.Prelude.{◌≡◌, ◌+◌, ◌≤◌, ◌<◌, [], is_ok, length, OnOk, Err};
ghost use Rattle.device_rules.specs.Devices.{HasCause, Rose, AppendsPrefix};
ghost use Rattle.proof_text.specs.Spelling.{greatest_number, longest_path, verdict_line};
ghost use Rattle.run_proof.specs.Shape.{lemma_viewed};
ghost use Rattle.run_proof.specs.declared.taker.NotTaken.TheVariants as untaken;
ghost use Rattle.run_upgrade.specs.Writing.{WritesLemma};

use board_bits::Position;
use io_ports::{Failed, Sink};
use proof_text::Verdict;
use run_proof::{
    LemmaOut, LemmaTaker, LemmaView, LemmaWriter, Line, MirrorIndex, NotTaken, Reason, print_line,
};
use std::alloc::Global;

/// What is kept of the lemmas that were written: their numbers by their positions, and how many there are.
#[derive(Drop)]
pub(crate) struct Writer {
    index: MirrorIndex,
    lemmas: LemmaOut,
}

/// Each lemma is written as soon as it is taken.
impl LemmaTaker for Writer {
    ghost use Rattle.run_upgrade.specs.Writing.{HasPut, upgraded_line};

    ghost holds = { λ writer root ls. HasPut writer.index writer.lemmas root ls };

    ghost puts = { upgraded_line };

    fn take<O: Sink>(
        &mut self,
        lemma: &LemmaView<'_>,
        position: &Position,
        out: &mut O,
    ) -> Result<(), NotTaken> {
        self.put(lemma, position, out)
    }
}

impl Writer {
    /// Nothing was written yet. No memory is taken.
    pub(crate) fn new(alloc: Global) -> Writer
        ensures { result ≡ record { index = record { wins = []; fails = [] }; lemmas = 0 } }
    {
        Writer {
            index: MirrorIndex::new(alloc),
            lemmas: LemmaOut::new(),
        }
    }

    /// Writes what becomes of the next lemma, which stands at this position: where an earlier one shows the same claim at
    /// the mirror image, it rests on the first such lemma. Its own number is kept for those behind it.
    fn put<O: Sink>(
        &mut self,
        lemma: &LemmaView<'_>,
        position: &Position,
        out: &mut O,
    ) -> Result<(), NotTaken>
        requires next { lemma.now.number ≡ self.old.lemmas + 1 }
        requires room { self.old.lemmas < greatest_number }
        requires short { length lemma.now.path.now.items ≤ longest_path }
        ensures written { WritesLemma position.now (lemma_viewed lemma.now) self.old.index self.new.index (O.written out.old) (O.written out.new) result }
        ensures counted { OnOk result (self.new.lemmas ≡ self.old.lemmas + 1) }
        ensures memory { result ≡ Err untaken.Memory → self.new.lemmas ≡ self.old.lemmas }
        ensures later { O.faults out.old ≤ O.faults out.new }
        ensures cause { result ≡ Err untaken.Write → Rose (O.faults out.old) (O.faults out.new) }
    {
        let image = self.index.find(position, lemma.claim);
        self.index.keep(position, lemma.claim, lemma.number)?;
        let path = lemma.path.as_slice();
        match image {
            Some(earlier) => {
                self.lemmas
                    .put(out, path, lemma.claim, &Reason::Mirror(earlier))?
            }
            None => self.lemmas.put(out, path, lemma.claim, &lemma.reason)?,
        };
        Ok(())
    }
}

/// Writes the line of the verdict, and hands on what was written.
pub(crate) fn put_verdict<O: Sink>(verdict: Verdict, out: &mut O) -> Result<(), Failed>
    ensures written { AppendsPrefix (is_ok result) (O.written out.old) (O.written out.new) (verdict_line verdict) }
    ensures cause { HasCause (O.faults out.old) (O.faults out.new) result }
{
    print_line(&Line::Verdict(verdict), out)?;
    out.flush()
}
