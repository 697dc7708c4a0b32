//! Why a simulation stopped.
use event_key::Key;

/// Why a simulation stopped.
#[derive(Clone, Copy, Debug, PartialEq, Eq)]
pub enum Stop {
    /// No pending event lies at or before the end.
    End,
    /// As many events happened as may happen, and another one is due.
    Limit,
    /// The event of this key failed: with code 1 where it sends without delay at the last step of a tick,
    /// and else with the code that the model gives.
    Fault { key: Key, code: u32 },
}
