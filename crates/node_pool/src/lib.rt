//! A region of slots for small values, of a size that is fixed when it is made. It is a map from live slots to values: a
//! value is placed into a slot that is free, read and changed by its slot, and given back, after which the slot can be
//! had again. All memory is taken at the beginning, so no later call can want for any.
#![tactic(auto)]

mod pool;
mod slot;
#[cfg(test)]
mod tests;

pub use pool::{MOST_SLOTS, Pool};
pub use slot::Slot;
