//! All that the program `replicate` does, as a library: a program of its own hands it the process's streams.
#![tactic(auto)]

pub mod numbers;
mod process;
mod reader;
mod text_seeds;
mod top;
mod window_rows;

pub use process::{run_process, run_streams};
pub use reader::ReplicateTexts;
pub use text_seeds::TextSeeds;
pub use top::replicate;
pub use window_rows::WindowRows;
