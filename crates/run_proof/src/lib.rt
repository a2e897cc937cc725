//! A proof as an input: it is read line by line, each line is judged as it comes, and what stops the reading is told with
//! the exit status and the text that every command which reads a proof gives then. Each lemma is handed to a taker, with its
//! position and with the sink of the output. Memory is taken for what the lemmas show alone, and by the taker.
#![tactic(auto)]

mod head;
mod lines;
mod reading;
mod stop;
mod taker;

pub use cert_checker::{Accepted, Checker, MirrorIndex, Refusal, Why};
pub use cert_format::{LemmaOut, LemmaView, LemmaWriter, Line, Reason, head_of, print_line};
pub use head::{Head, read_head};
pub use lines::{LinesRead, Until, read_lines};
pub use proof_book::Book;
pub use reading::{ProofRead, read_proof};
pub use stop::ProofStop;
pub use taker::{KeepsNone, LemmaTaker, NotTaken};
