//! How large a model may be, and how far its run may be spread.

/// How many objects a model has at most.
pub const MOST_OBJECTS: u32 = 65_536;

/// How many entries a model text lists at most that let something begin.
pub const MOST_ENTRIES: usize = 65_536;

/// How many bytes a model text has at most.
pub const MOST_TEXT_BYTES: usize = 1_048_576;

/// How many nodes a run has at most, and how many workers for them.
pub const MOST_NODES: u32 = 64;

/// How many events a node processes at most beyond those that it must.
pub const MOST_AHEAD: u32 = 1_024;

/// How many stations a demo has at most.
pub const MOST_DEMO_STATIONS: u32 = 256;

/// How many events a simulation has at most.
pub const MOST_EVENTS: u64 = 1_000_000_000;
