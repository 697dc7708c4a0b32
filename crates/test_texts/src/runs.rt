//! Whole runs over sources and sinks in memory.
use sim_io::{MemSink, MemSource};
use std::alloc::Global;
use std::test::Fail;

/// More bytes than any run writes.
const ROOM: usize = 2_000_000;

/// How a run ended, what it wrote and what it noted.
#[derive(Drop)]
pub struct Ended {
    pub status: u8,
    pub text: String,
    pub notes: String,
}

impl Ended {
    /// Of a run that ended with this status and left these sinks.
    pub fn of(alloc: Global, status: u8, out: &MemSink, notes: &MemSink) -> Result<Ended, Fail> {
        Ok(Ended {
            status,
            text: text_of(alloc, out)?,
            notes: text_of(alloc, notes)?,
        })
    }

    /// Fails unless the run ended so.
    pub fn expect(&self, status: u8, text: &str, notes: &str, what: &str) -> Result<(), Fail> {
        if self.text.as_str() != text {
            return Err(Fail::new(format_args!("{what}: another text:\n{}", self.text)));
        }
        if self.notes.as_str() != notes {
            return Err(Fail::new(format_args!("{what}: other notes: {}", self.notes)));
        }
        if self.status != status {
            return Err(Fail::new(format_args!("{what}: status {}", self.status)));
        }
        Ok(())
    }
}

/// A source that gives 16 bytes a read, and fails at these calls.
pub fn source_of(alloc: Global, bytes: &[u8], fails: &[u64]) -> Result<MemSource, Fail> {
    Ok(MemSource::new(bytes.to_vec(alloc)?, fails.to_vec(alloc)?, 16))
}

/// A sink that takes 10 bytes a write, fails at some calls and takes nothing at others.
pub fn sink_of(alloc: Global, fails: &[u64], idle: &[u64]) -> Result<MemSink, Fail> {
    let fails = fails.to_vec(alloc)?;
    let idle = idle.to_vec(alloc)?;
    Ok(MemSink::new(alloc, ROOM, fails, idle, 10)?)
}

/// What a sink has taken.
pub fn text_of(alloc: Global, sink: &MemSink) -> Result<String, Fail> {
    let text = std::str::from_utf8(sink.bytes())?;
    Ok(String::from_str(alloc, text)?)
}
