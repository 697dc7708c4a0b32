//! What happens at objects.
use event_key::Key;

/// Something that happens at one object. Events are ordered by their fields in turn, so by their keys where these
/// differ.
#[derive(Clone, Copy, Debug, PartialEq, Eq, PartialOrd, Ord)]
pub struct Event {
    pub key: Key,
    /// What happens: the model says what a kind means.
    pub kind: u32,
    pub a: u64,
    pub b: u64,
}

/// A message that an event sends: an event at its destination, later.
#[derive(Clone, Copy, Debug, PartialEq, Eq)]
pub struct Send {
    pub dest: u32,
    /// In ticks, at most 2^40. Without delay it comes at the next step of the tick.
    pub delay: u64,
    pub kind: u32,
    pub a: u64,
    pub b: u64,
    /// At most `MOST_RANK`.
    pub rank: u32,
}

/// An event with which a simulation begins.
#[derive(Clone, Copy, Debug, PartialEq, Eq)]
pub struct Start {
    /// In ticks, below 2^46.
    pub time: u64,
    pub dest: u32,
    pub kind: u32,
    pub a: u64,
    pub b: u64,
    /// At most `MOST_RANK`.
    pub rank: u32,
}
