//! What a simulation computes, as definitions, and the types that its engines share.
//!
//! The definitions stand in `specs/` and know nothing of an engine: one list of pending events in the order
//! of their keys, and one state for each object.
#![tactic(auto)]

mod bucket;
mod engine;
pub mod laws;
mod placement;
mod state;
mod stop;
mod terms;

pub use bucket::Bucket;
pub use engine::Engine;
pub use placement::Placement;
pub use state::{ObjectState, State};
pub use stop::Stop;
pub use terms::Terms;
