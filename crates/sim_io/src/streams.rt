//! Where bytes come from and go to.
mod clean;
mod failed;
mod gathering_sink;
mod mem_sink;
mod mem_source;
mod reading;
mod sink;
mod source;
mod std_sink;
mod std_source;
mod writing;

pub use clean::{CleanSink, CleanSource};
pub use failed::Failed;
pub use gathering_sink::GatheringSink;
pub use mem_sink::MemSink;
pub use mem_source::MemSource;
pub use reading::{ENOUGH_BYTES, ReadEnd, read_all, read_some};
pub use sink::Sink;
pub use source::Source;
pub use std_sink::StdSink;
pub use std_source::StdSource;
pub use writing::write_all;
