//! The command `check`: a proof is read, and nothing is written before the end of the input was reached: then one line says
//! that the proof is accepted, with its verdict and the number of its lemmas.
#![tactic(auto)]

mod checked;
mod command;

pub use checked::Checked;
pub use command::check;
