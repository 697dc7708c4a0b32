//! Totals of a simulation: for each object how much came, how much was served and how much was lost, and how much time
//! servers were busy and jobs waited, as sums over what is told of it.
#![tactic(auto)]

mod occupancy;
mod sums;
mod tally;
mod totals;

pub use occupancy::Occupancy;
pub use sums::{Sums, is_arrival, is_service};
pub use totals::Totals;
