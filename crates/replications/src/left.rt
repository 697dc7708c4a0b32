//! Who is at an object as the last thing that was told left it.
use sim_stats::Occupancy;

/// Who is at an object, and since when.
#[derive(Clone, Copy, Debug, PartialEq, Eq)]
pub struct Left {
    /// The tick at which that came about.
    pub since: u64,
    /// How many servers are busy since then, and how many jobs wait.
    pub occupancy: Occupancy,
}
