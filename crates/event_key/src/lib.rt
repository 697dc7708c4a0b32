//! Stamps and keys: when an event happens, and which of two events comes first.
#![tactic(auto)]

mod key;
mod stamp;

pub use key::{INITIAL, Key, MOST_RANK};
pub use stamp::{LAST_TICK, NO_STAMP, STEPS, end_bound, later, stamp_of, step_of, time_of};
