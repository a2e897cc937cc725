//! The lines of plans, written and read, and the texts of what plans are made of: squares, groups, instances of the nine
//! rules, and the reason for which a list is no plan. What each text says, how it is spelled and how it is read is defined
//! in `plan_text`, whose definitions each contract here cites. No call takes memory.
#![tactic(auto)]

mod instance_text;
mod items;
mod plan_line;

pub use items::{Item, print_item, push_group, push_plan_fault};
pub use plan_line::{LineFault, members_of, print_plan, put_plan_end, read_plan};
pub use plan_rules::MOST_MEMBERS;
pub use rule_compat::{Instance, Plan, PlanFault};
