//! Lines put to a sink. Each line is made whole first and then put at once, so that a sink that fails has a prefix of it.
ghost use Rattle.std.specs.Prelude.{◌≡◌, ◌≢◌, ◌≤◌, length, is_ok};
ghost use Rattle.device_rules.specs.Devices.{HasCause, AppendsPrefix};
ghost use Rattle.proof_text.specs.Lemma.{ARemark};
ghost use Rattle.proof_text.specs.Spelling.{lemma_line, longest_path};
ghost use Rattle.proof_lines.specs.Shape.{reason_viewed, line_of};
ghost use Rattle.cert_format.specs.Printed.{printed};

use crate::back_line::BackLine;
use crate::verdict_line::verdict_line;
use io_ports::{Failed, Sink, put_all};
use plan_lines::put_plan_end;
use proof_lines::{LemmaWriter, Line, Reason, ReasonView};
use proof_text::Claim;
use std::marker::Model;
use text_words::Column;

/// Writes the spelling of a lemma or a verdict, and a line feed. A remark can't be written, since what it says isn't
/// kept. The line is one of a proof, and read again as it was, where its numbers are from 1 to 10,000,000, `All` has at
/// least one cite and `Plan` one instance, and its columns and instances are those of one board. On `Failed`, which comes
/// only where the sink's count of faults rose, a prefix was written.
pub fn print_line<O: Sink>(line: &Line, out: &mut O) -> Result<(), Failed>
    requires { line_of line.now ≢ ARemark }
    ensures written { AppendsPrefix (is_ok result) (O.written out.old) (O.written out.new) (printed (line_of line.now)) }
    ensures cause { HasCause (O.faults out.old) (O.faults out.new) result }
{
    match line {
        Line::Lemma(lemma) => {
            let mut line = BackLine::new();
            put_lemma(
                &mut line,
                lemma.number,
                lemma.path.as_slice(),
                lemma.claim,
                &lemma.reason.view(),
                out,
            )
        }
        Line::Verdict(verdict) => put_all(out, verdict_line(*verdict).as_slice()),
        Line::Remark => unreachable!(),
    }
}

/// Writes the line of a lemma, which is made in this buffer. The members of a plan follow piece by piece.
#[inline(always)]
fn put_lemma<O: Sink>(
    line: &mut BackLine,
    number: u32,
    path: &[Column],
    claim: Claim,
    reason: &ReasonView<'_>,
    out: &mut O,
) -> Result<(), Failed>
    requires { length path.now ≤ longest_path }
    ensures written { AppendsPrefix (is_ok result) (O.written out.old) (O.written out.new)
        (lemma_line (record { number = number; path = path.now; claim = claim; reason = reason_viewed reason.now })) }
    ensures cause { HasCause (O.faults out.old) (O.faults out.new) result }
{
    line.make_lemma(number, path, claim, reason);
    put_all(out, line.bytes())?;
    match reason {
        Reason::Plan(members) => put_plan_end(members.as_slice(), out),
        _ => Ok(()),
    }
}

/// The lemmas of a proof as they are put, numbered from 1. It holds no sink, so that other lines can stand between them, but
/// the buffer in which each line is made.
#[derive(Drop)]
pub struct LemmaOut {
    count: u32,
    line: BackLine,
}

impl Model for LemmaOut {
    ghost use Rattle.std.specs.Prelude.{ℕ, ◌≤◌};
    ghost use Rattle.proof_text.specs.Spelling.{greatest_number};

    ghost Value = { ℕ };

    ghost view = { λ lemmas. lemmas.count };

    ghost invariant = { λ lemmas. lemmas.count ≤ greatest_number };
}

impl LemmaOut {
    /// No lemma was put.
    pub fn new() -> LemmaOut
        ensures { result ≡ 0 }
    {
        LemmaOut {
            count: 0,
            line: BackLine::new(),
        }
    }
}

impl LemmaWriter for LemmaOut {
    ghost count = { λ lemmas. lemmas };

    #[inline(always)]
    fn put<O: Sink>(
        &mut self,
        out: &mut O,
        path: &[Column],
        claim: Claim,
        reason: &ReasonView<'_>,
    ) -> Result<u32, Failed> {
        let number = self.count + 1;
        put_lemma(&mut self.line, number, path, claim, reason, out)?;
        self.count = number;
        Ok(number)
    }
}
