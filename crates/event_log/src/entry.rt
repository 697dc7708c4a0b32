//! The entry of a carried event.
use event_key::Key;

/// What is known at once of a carried event, and where it lies.
#[derive(Clone, Copy)]
pub struct Entry {
    pub key: Key,
    /// The place of its object.
    pub place: u32,
    /// The slot in which the event lies.
    pub slot: usize,
    /// The least stamp that it sends, or `NO_STAMP`.
    pub least: u64,
    /// The least that it and those behind it send.
    pub held: u64,
}
