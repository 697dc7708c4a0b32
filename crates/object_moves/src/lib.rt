//! Objects move between the nodes of a world, with their logs and the events that wait for them: nothing is undone, and
//! the world stands for the same state.
#![tactic(auto)]

mod balance;
mod copies;
mod moves;
mod moving;
mod preparing;
mod step;

pub use balance::plan_by_load;
pub use model_core::OutOfMemory;
pub use moves::Move;
pub use moving::move_objects;
