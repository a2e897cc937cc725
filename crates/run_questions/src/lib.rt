//! The two questions that settle a position: whether White wins, and where it doesn't, whether Black does, within one
//! budget. What they show is written as lemmas, with a remark on a front before each question, or nowhere, where the value
//! alone is asked for. Memory for a front and for a table is taken by the caller.
#![tactic(auto)]

mod fronts;
mod questions;
mod value;

pub use cert_format::{Line, head_of, print_line};
pub use deep_search::{SearchStop, Table};
pub use fronts::{SizedFront, front_for};
pub use proof_front::Chooser;
pub use questions::ask;
pub use value::find_value;
