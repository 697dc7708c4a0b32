//! The exit statuses.

/// The simulation ran to its end.
pub const END: u8 = 0;

/// An event failed.
pub const EVENT_FAULT: u8 = 1;

/// The words are refused.
pub const WORDS: u8 = 2;

/// The model is refused.
pub const MODEL: u8 = 3;

/// Reading failed.
pub const READ_FAULT: u8 = 4;

/// Writing failed.
pub const WRITE_FAULT: u8 = 5;

/// There was no memory left.
pub const OUT_OF_MEMORY: u8 = 6;

/// The limit of events was met.
pub const EVENT_LIMIT: u8 = 7;

/// The saved state is refused, or has too long a text.
pub const STATE: u8 = 8;
