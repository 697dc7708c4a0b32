//! Where and when a model text lets something begin.

/// An event that a model text lists: when it happens, and at which object.
#[derive(Clone, Copy, Debug, PartialEq, Eq)]
pub struct Entry {
    /// In ticks, below 2^46.
    pub time: u64,
    pub at: u32,
    /// At most `MOST_RANK`.
    pub rank: u32,
}
