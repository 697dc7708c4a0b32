//! The pending events of a simulation: those that are sorted, and those that have come since.
//!
//! New events go to a list of their own, whose least stamp is the event horizon (Steinman, "Discrete-Event
//! Simulation and the Event Horizon", 1994). They are sorted and merged at once, when the horizon is reached.
//! The sorted list is kept as a few sorted runs whose lengths grow eightfold, so that what an event costs
//! grows with the logarithm of how many are pending, whatever the order in which they come. Its cell is
//! relinked, and neither copied nor made anew.
#![tactic(auto)]

mod fresh;
mod head;
mod least;
mod merge;
mod pair;
mod queue;
mod runs;
mod slots;
mod threads;

pub use delta_exchange::OutOfMemory;
pub use least::lesser;
pub use queue::Queue;
