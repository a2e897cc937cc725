//! The search with lemmas: whether a side wins at a position, and a lemma for each position that it enters and that its
//! table doesn't have, each written after those that it cites. It goes through the moves from the middle outwards, up to
//! the first that decides, and where White is asked about it answers without a move where Black has a plan. It takes no
//! memory but what the table takes, and goes on where there is none.
#![tactic(auto)]

mod laws;
mod solving;

pub use laws::a_lemma_rests_on_a_plan_where_one_is_chosen;
pub use position_table::Table;
pub use solving::{Answer, SearchStop, search};
