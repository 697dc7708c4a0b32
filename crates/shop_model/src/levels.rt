//! The entries of a station's line, level by level: the jobs that wait and the places of those that lost their patience.
ghost use Rattle.std.specs.Prelude.{◌≡◌, ◌<◌};
ghost use Rattle.shop_model.specs.declared.station.TheConstants.{MOST_LEVELS};
ghost use Rattle.shop_model.specs.Stations.{jobs_line, births_line, since_line, until_line};

use crate::station::{ENTRIES, LINES_A_LEVEL};

/// A job that is at least this is the place of one that lost its patience: each of its bits was turned.
pub const EMPTY: u64 = 1 << 63;

/// A wait that never ends by itself.
pub const NEVER: u64 = u64::MAX;

/// The lines of a level: its jobs, when each was made, since when it waits, and until when at most.
#[derive(Clone, Copy)]
pub struct Level {
    pub jobs: u32,
    pub births: u32,
    pub since: u32,
    pub until: u32,
}

/// The place of an entry: its level, and how many entries of the level stand before it.
#[derive(Clone, Copy)]
pub struct Entry {
    pub level: u32,
    pub place: usize,
}

impl Level {
    /// The lines of a level, counted from 0.
    pub fn at(level: u32) -> Level
        requires { level < MOST_LEVELS }
        ensures jobs { result.jobs ≡ jobs_line level }
        ensures births { result.births ≡ births_line level }
        ensures since { result.since ≡ since_line level }
        ensures until { result.until ≡ until_line level }
    {
        let jobs = ENTRIES + LINES_A_LEVEL * level;
        Level {
            jobs,
            births: jobs + 1,
            since: jobs + 2,
            until: jobs + 3,
        }
    }
}
