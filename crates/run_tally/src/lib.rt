//! What is summed up of a run as its records come, for the lines of `totals`: which sums there are is told by a trait, so that
//! each kind of model can have its own.
#![tactic(auto)]

mod adding;
mod no_tally;
mod tally;

pub use adding::add_all;
pub use no_tally::NoTally;
pub use tally::Tally;
