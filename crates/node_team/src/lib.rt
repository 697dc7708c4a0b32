//! A team: the nodes of a world advance in threads below one shared word, and what they commit goes through lanes.
#![tactic(auto)]

mod advancing;
mod alone;
mod arriving;
mod closing;
mod cycling;
mod ending;
mod floor;
mod gate;
mod handing;
mod kept;
mod paying;
mod releasing;
mod running;
mod seating;
mod setting;
mod stealing;
mod team;

pub use advancing::advance;
pub use gate::{Gate, Open};
pub use model_core::OutOfMemory;
pub use team::Team;
