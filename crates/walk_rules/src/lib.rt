//! The walk over sets of zone instances, the plan that a set gives, and what is chosen among the first sets of the
//! walk, as definitions that code cites, with their laws proved.
//!
//! A search for a plan goes through sets of zones depth first. Each zone that is added owns the first square that is
//! still open. The definitions stand in `specs/`, in lists of instances, with no mask in them: `Walk` has the walk and
//! the choice, `Choice` the choice in words, and `Steps` and `Answers` have what is left to visit and what a set is
//! tested by, for the code that goes through the sets. The order of the walk is this project's own choice. Each function
//! of `laws` is a theorem: its contract is the theorem, and its body is empty.
#![tactic(auto)]

pub mod laws;
