//! What `play` says where no plan stands at the head of the input.
ghost use Rattle.std.specs.Prelude.{◌≡◌, ◌++◌};
ghost use Rattle.run_play.specs.Plays.{no_plan_line_text, no_plan_text};

use plan_lines::{PlanFault, push_plan_fault};
use run_frame::{Ending, LineText, begin_refusal, push_text};
use run_turns::GameEnd;

/// The number of the line of the plan.
const PLAN_LINE: u64 = 3;

/// Why there is no plan to play by: status 4.
#[derive(Clone, Copy, Drop)]
pub enum NoPlan {
    /// The third line is missing, or is no line of a plan.
    NoLine,
    /// The instances that it names are no plan at the game's position.
    Refused(PlanFault),
}

/// How a run of `play` ends.
pub type PlayEnd = GameEnd<NoPlan>;

impl Ending for NoPlan {
    ghost use Rattle.run_play.specs.Plays.{head_status, head_text};

    ghost status_of = { head_status };

    ghost text_of = { head_text };

    fn status(&self) -> u8 {
        4
    }

    fn text(&self) -> LineText {
        match self {
            NoPlan::NoLine => no_plan_line_text(),
            NoPlan::Refused(fault) => no_plan_text(fault),
        }
    }
}

/// Says that the third line is no line of a plan.
fn no_plan_line_text() -> LineText
    ensures { result.items ≡ no_plan_line_text }
{
    let mut text = begin_refusal(PLAN_LINE);
    push_text(&mut text, b"BadLine\n");
    text
}

/// Says why the third line names no plan.
fn no_plan_text(fault: &PlanFault) -> LineText
    ensures { result.items ≡ no_plan_text fault.now }
{
    let mut text = begin_refusal(PLAN_LINE);
    push_plan_fault(&mut text, fault);
    text.push(b'\n');
    text
}
