//! Where a record stands.
use event_key::Key;

/// The key of an event, and which parts of a list are told of it.
#[derive(Clone, Copy, Debug)]
pub struct RecordHead {
    pub key: Key,
    /// The place of its first part.
    pub start: u64,
    pub count: u32,
}
