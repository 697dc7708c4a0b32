//! PHOLD, the synthetic workload of parallel simulation: every event hops on to another object after a drawn delay.
//!
//! R. M. Fujimoto, "Performance of Time Warp under synthetic workloads", 1990. The numbers of events, the laws of the
//! delay and the two choices of a destination are those of this project.
#![tactic(auto)]

mod phold;

pub use phold::Phold;
