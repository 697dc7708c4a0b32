//! What takes the records of a run as its events are fired: a list of them, or the lines that tell of them.
#![tactic(auto)]

mod recorder;

pub use recorder::Recorder;
