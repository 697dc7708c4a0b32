//! All that the program `btb` does, as a library: a program of its own hands it the process's streams.
#![tactic(auto)]

pub mod laws;
mod process;
mod program;
mod running;
mod stack;
mod top;

pub use model_program::{Gate, Open};
pub use process::{run_process, run_streams};
pub use program::run_program;
pub use top::btb;
