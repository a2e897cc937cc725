//! Tests of runs over devices that fail or cut what they give, and of what callers rest on. What a run answers over sound
//! devices is shown by the files of `examples/`. A crate of their own has them, as `rule_tests` says.
#![tactic(auto)]

#[cfg(test)]
mod callers;
#[cfg(test)]
mod devices;
#[cfg(test)]
mod failing_calls;
#[cfg(test)]
mod running;
