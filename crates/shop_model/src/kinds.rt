//! The kinds of events.

/// A class makes jobs.
pub const MAKE: u32 = 1;

/// A job comes to the object of its step.
pub const COME: u32 = 2;

/// A service may be at its end.
pub const DONE: u32 = 3;

/// A server may call a job that waits.
pub const CALL: u32 = 4;

/// The patience of a job that waits may be at its end.
pub const TIRE: u32 = 5;

/// A shift begins.
pub const SHIFT: u32 = 6;

/// A station stands still from now on.
pub const BREAK: u32 = 7;

/// A station works from now on.
pub const MEND: u32 = 8;

/// The rank of a job that comes, beside the priority of its class.
pub const COME_RANK: u32 = 8;
