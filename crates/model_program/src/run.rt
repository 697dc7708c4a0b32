//! A model, whichever it is, run to the end of its text: on one thread, or on nodes in threads.

mod begun;
mod handing;
mod job;
mod machine;
mod moving;
mod one_thread_run;
mod running;
mod saving;
mod stage;
mod team_run;
mod told;

pub use job::Job;
pub use machine::{DEFAULT_SPREAD, Machine, Spread};
pub use running::run_model;
pub use saving::{resume_model, save_model};
pub use stage::Stage;
