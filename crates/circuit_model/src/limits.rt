//! How large a circuit may be.

/// How long an output takes at most to the pins that it feeds, in ticks: 2^40.
pub const MOST_DELAY: u64 = 1_099_511_627_776;

/// How often the inputs of a circuit turn at most in all.
pub const MOST_FLIPS: usize = 300_000;

/// How many pins a gate feeds at most.
pub const MOST_FED: usize = 8;

/// How many pins a gate has at most.
pub const MOST_PINS: usize = 8;
