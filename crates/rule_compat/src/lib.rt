//! Plans: an instance of any of the nine rules, why a list of them is no plan, and a plan with its answers.
#![tactic(auto)]

mod check;
mod facts;
mod fault;
mod instance;
mod lines;
mod members;
mod placed;
mod plan;
mod strategy;
mod table;
mod zone;

pub use crate::facts::facts_kept;
pub use crate::fault::PlanFault;
pub use crate::instance::Instance;
pub use crate::plan::Plan;
pub use crate::strategy::a_plan_keeps_white_from_a_line;
pub use crate::table::may_stand;
pub use crate::zone::Zone;
pub use base_rules::{Baseclaim, Baseinverse, push_baseclaims, push_baseinverses};
pub use claimeven::{Claimeven, push_claimevens};
pub use group_rules::{Aftereven, Before, Kind, Rule, Specialbefore, squares_below};
pub use inverse_rules::{Highinverse, Lowinverse, Vertical, push_highinverses, push_lowinverses};
