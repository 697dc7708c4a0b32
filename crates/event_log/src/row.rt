//! A processed event in a flat list.
ghost use Rattle.std.specs.Prelude.{◌≡◌};

use model_core::Event;

/// A processed event: itself, and how much of the flat lists beside is its own.
#[derive(Clone, Copy)]
pub struct Row {
    pub event: Event,
    /// The least stamp that it and those before it send, or `NO_STAMP`.
    pub least: u64,
    /// How many changes undo it.
    pub changes: u32,
    /// How many messages it sends.
    pub sends: u32,
}

impl Row {
    /// The row of an event that so many changes undo, and that sends so many messages.
    pub fn new(event: Event, least: u64, changes: u32, sends: u32) -> Row
        ensures { result ≡ record { event = event; least = least; changes = changes; sends = sends } }
    {
        Row {
            event,
            least,
            changes,
            sends,
        }
    }
}
