//! The lines of a proof as values: lemmas with what they claim and why, the lemmas that they cite, how far the paths of two
//! are the same, and who writes them. How such a line is written and read, `cert_format` says. No call takes memory.
#![tactic(auto)]

mod lines;
mod paths;
mod writer;

pub use board_bits::Column;
pub use lines::{
    Cite, LONGEST_LINE, LONGEST_PATH, Lemma, LemmaView, Line, LineView, MOST_CITES, Reason,
    ReasonKind, ReasonView, first_line,
};
pub use paths::shared_moves;
pub use proof_text::{Claim, Verdict, Version};
pub use rule_compat::{Instance, Plan, PlanFault};
pub use writer::LemmaWriter;
