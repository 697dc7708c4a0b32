//! What the program reads and writes: streams of bytes, the words of the command line, and the lines of a simulation's
//! text.
#![tactic(auto)]

pub mod laws;
mod lines;
mod room;
mod streams;
mod words;

pub use lines::{LineWriter, cut_back, put_cycle, put_demo, put_number, put_stamp, put_stop};
pub use streams::{
    CleanSink, CleanSource, ENOUGH_BYTES, Failed, GatheringSink, MemSink, MemSource, ReadEnd, Sink,
    Source, StdSink, StdSource, read_all, read_some, write_all,
};
pub use words::{
    DEFAULT_AHEAD, DEFAULT_NODES, MOST_SAVED_CYCLES, Moves, Settings, WordFault, is_decimal,
    number_within, read_model_words, read_words, stray_word,
};
