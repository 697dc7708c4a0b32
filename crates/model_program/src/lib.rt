//! All that a program does which runs the models of a reader, as a library: a program of its own hands it the reader and the
//! process's streams. What runs one model stands in `run`, whoever read it.
#![tactic(auto)]

pub mod laws;
mod process;
mod program;
mod run;
mod running;
mod saving;
mod setting;
mod state_refusal;

pub use node_team::{Gate, Open};
pub use process::{run_process, run_streams};
pub use program::{ModelProgram, run_program};
pub use run::{DEFAULT_SPREAD, Job, Machine, Spread, Stage, resume_model, run_model, save_model};
pub use running::{run_command, run_words};
pub use setting::{machine_of, telling_of};
