//! Who writes the lemmas of a proof. What stands in a lemma's line, `proof_text` defines; how the line is made is left to the
//! writer, so that a search and its proof don't depend on it.
ghost use Rattle.std.specs.Prelude.{◌≡◌, ℕ, ◌+◌, ◌<◌, ◌≤◌, length, is_ok, IfOk, OnOk, OnErr};
ghost use Rattle.device_rules.specs.Devices.{HasCause, AppendsPrefix};
ghost use Rattle.proof_text.specs.Spelling.{lemma_line, greatest_number, longest_path};
ghost use Rattle.proof_lines.specs.Shape.{reason_viewed};

use crate::lines::ReasonView;
use board_bits::Column;
use io_ports::{Failed, Sink};
use proof_text::Claim;

/// Writes the lemmas of a proof, numbered from 1. It holds no sink, so that other lines can stand between them.
pub trait LemmaWriter {
    /// How many lemmas were written, at most 10,000,000.
    ghost count: { Self → ℕ };

    /// Puts the line of the next lemma, and answers its number. On `Failed`, which comes only where the sink's count of
    /// faults rose, a prefix of the line was written, and the number is given to the lemma that is put next.
    fn put<O: Sink>(
        &mut self,
        out: &mut O,
        path: &[Column],
        claim: Claim,
        reason: &ReasonView<'_>,
    ) -> Result<u32, Failed>
        requires room { count self.old < greatest_number }
        requires short { length path.now ≤ longest_path }
        ensures number { IfOk result (λ n. n ≡ count self.old + 1) }
        ensures counted { OnOk result (count self.new ≡ count self.old + 1) }
        ensures kept { OnErr result (count self.new ≡ count self.old) }
        ensures written { AppendsPrefix (is_ok result) (O.written out.old) (O.written out.new)
            (lemma_line (record { number = count self.old + 1; path = path.now; claim = claim; reason = reason_viewed reason.now })) }
        ensures cause { HasCause (O.faults out.old) (O.faults out.new) result };
}
