//! How a process ends.

/// The status of a program, the streams as they are left, and how often a read of its input, or a write of its output or of its
/// notes, failed. A write that takes nothing counts as one that failed.
#[derive(Drop)]
pub struct ProcessEnd<I, O, N> {
    pub status: u8,
    pub input: I,
    pub output: O,
    pub notes: N,
    pub read_faults: u64,
    pub write_faults: u64,
    pub note_faults: u64,
}
