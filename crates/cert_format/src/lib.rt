//! The lines of a proof's text, written and read. How each line is spelled and how it is read is defined in `proof_text`,
//! whose definitions each contract here cites; what it says is a value of `proof_lines`. The lines of plans, and the texts of
//! plan faults for reports, are those of `plan_lines`. No call takes memory.
#![tactic(auto)]

mod back_line;
mod head;
mod named_moves;
mod output;
mod path_room;
mod reading;
mod room;
mod verdict_line;

pub use head::head_of;
pub use output::{LemmaOut, print_line};
pub use plan_lines::{LineFault, push_plan_fault};
pub use proof_lines::{
    Cite, Claim, Lemma, LemmaView, LemmaWriter, Line, LineView, Reason, ReasonView, Verdict,
    Version, first_line,
};
pub use reading::read_line;
pub use room::LineBuffer;
