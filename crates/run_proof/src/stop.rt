//! What stops the reading of a proof.
ghost use Rattle.std.specs.Prelude.{◌≡◌, ◌++◌};
ghost use Rattle.arrayvec.specs.ArrayVec.{array_vec_len};
ghost use Rattle.run_proof.specs.Stops.{refusal_line};
ghost use Rattle.proof_text.specs.declared.Why.TheVariants as whys;
ghost use Rattle.run_frame.specs.declared.run_stop.RunStop.TheVariants as run_stops;
ghost use Rattle.run_proof.specs.declared.stop.ProofStop.TheVariants as stops;

use cert_checker::{Refusal, Why};
use cert_format::push_plan_fault;
use run_frame::{Ending, InputStop, LineText, RunStop, begin_refusal, memory_text, push_text};

/// What stops the reading of a proof before its end.
#[derive(Clone, Copy)]
pub enum ProofStop {
    /// The game is none, or the source failed: status 3 or 6.
    Input(InputStop),
    /// A line is refused, the first that fails, by the first name that holds there: status 4.
    Refused(Refusal),
    /// Memory ran out at a lemma that isn't refused, to keep what it shows or to take it: status 8.
    Memory,
}

impl From<InputStop> for ProofStop {
    ghost from_gives = { λ why stop. stop ≡ stops.Input why };

    fn from(why: InputStop) -> ProofStop {
        ProofStop::Input(why)
    }
}

impl From<ProofStop> for RunStop<ProofStop> {
    ghost from_gives = { λ why stop. stop ≡ run_stops.Own why };

    fn from(why: ProofStop) -> RunStop<ProofStop> {
        RunStop::Own(why)
    }
}

impl Ending for ProofStop {
    ghost use Rattle.run_proof.specs.Stops.{stop_status, stop_text};

    ghost status_of = { stop_status };

    ghost text_of = { stop_text };

    fn status(&self) -> u8 {
        match self {
            ProofStop::Input(why) => why.status(),
            ProofStop::Refused(_) => 4,
            ProofStop::Memory => 8,
        }
    }

    fn text(&self) -> LineText {
        match self {
            ProofStop::Input(why) => why.text(),
            ProofStop::Refused(refusal) => refusal_text(refusal),
            ProofStop::Memory => memory_text(),
        }
    }
}

/// The number of the line that is refused, and why.
fn refusal_text(refusal: &Refusal) -> LineText
    ensures { result.items ≡ refusal_line refusal.now }
{
    let mut text = begin_refusal(refusal.at);
    push_text(&mut text, refusal.why.word());
    if let Why::BadPlan(fault) = &refusal.why {
        text.push(b' ');
        push_plan_fault(&mut text, fault);
    }
    text.push(b'\n');
    text
}

/// The line at this number is none of a proof.
pub(crate) fn bad_line(at: u64) -> ProofStop
    ensures { result ≡ stops.Refused (record { at = at; why = whys.BadLine }) }
{
    ProofStop::Refused(Refusal {
        at,
        why: Why::BadLine,
    })
}
