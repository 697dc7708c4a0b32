//! The text of a saved state: written from a state and the bytes of its model, and read again.
#![tactic(auto)]

mod cursor;
mod digits;
mod draft;
mod laws;
mod reading;
mod reading_checks;
mod reading_lines;
mod reading_lists;
mod refusal;
mod saved;
mod writing;
mod writing_lines;

pub use laws::{law_read, law_written};
pub use reading::{MOST_STATE_BYTES, read_state};
pub use refusal::{StateCause, StateRefusal, state_code_name};
pub use saved::Saved;
pub use writing::put_state;
