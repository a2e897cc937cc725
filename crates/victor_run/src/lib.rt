//! The top call: the words of a command line are read, the command that they ask for runs, over any source and any two
//! sinks, and its end is told by a status and a text. Its contract is what the product promises; what each command promises
//! stands in the command's own crate.
#![tactic(auto)]

mod command;
mod no_form;

pub use command::run;
