//! The text of a simulation, from any engine that goes cycle by cycle.
#![tactic(auto)]

mod bucket_text;
mod first_cycles;
pub mod laws;
mod line_buffer;
mod line_simulation;
mod report;
mod simulation;
mod summary;
mod telling;
mod unfinished;

pub use first_cycles::simulate_first;
pub use line_buffer::LineBuffer;
pub use line_simulation::simulate_lines;
pub use simulation::simulate;
pub use telling::Telling;
pub use unfinished::Unfinished;
