//! How far a simulation goes.
ghost use Rattle.std.specs.Prelude.{◌<◌, ◌≤◌, ◌^◌};
ghost use Rattle.model_core.specs.declared.limits.TheConstants.{MOST_EVENTS};

/// The last tick of a simulation, and how many events it may have.
#[derive(Clone, Copy, Debug, PartialEq, Eq)]
pub struct Terms {
    /// In ticks, below 2^46. Events at this time still happen.
    pub end: u64,
    /// From 1 to `MOST_EVENTS`.
    pub limit: u64,
    ghost end_in_range: { end < 2 ^ 46 },
    ghost some_event: { 1 ≤ limit },
    ghost limit_in_range: { limit ≤ MOST_EVENTS },
}
