//! What a program answers to its words and its input: how it ends, with which status, and what it notes of that.
#![tactic(auto)]

mod ending;
mod notes;
mod process_end;
pub mod status;
mod std_streams;
mod words;

pub use ending::{Ending, ending_of};
pub use notes::{conclude, conclude_unread, refused};
pub use process_end::ProcessEnd;
pub use std_streams::StdStreams;
pub use words::program_words;
