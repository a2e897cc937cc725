//! The command `upgrade`: a proof of the first version is read, and written in the second as it is read: each lemma as
//! soon as it is accepted, by its mirror image where an earlier one shows that. Besides what the checker keeps, the
//! numbers of the lemmas are kept by their positions.
#![tactic(auto)]

mod command;
mod upgraded;
mod writing;

pub use command::upgrade;
pub use upgraded::Upgraded;
