//! Stations.
ghost use Rattle.std.specs.Prelude.{◌≡◌, ◌<◌, ◌≤◌};
ghost use Rattle.shop_model.specs.declared.station.TheConstants.{MOST_LEVELS, MOST_OPEN};
ghost use Rattle.shop_model.specs.Stations.{gone_word, mark_word, level_of};

use crate::class::MOST_PRIORITY;
use model_core::{Name, Sequence};
use random_streams::DelayLaw;

/// How many servers of a station are open at most.
pub const MOST_OPEN: u32 = 1_024;

/// How many jobs wait at a station at most, beside as many as spare servers are about to call.
pub const MOST_LINE: u32 = 65_536;

/// How many shifts a station has at most.
pub const MOST_SHIFTS: usize = 1_024;

/// The words of a station: how many servers are open, how many are held, how many jobs wait, whether it stands still, and
/// for how many ticks it did, the present standstill counted whole. Word 0 is its random place.
pub const OPEN: u32 = 1;

pub const HELD: u32 = 2;

pub const WAITING: u32 = 3;

pub const DOWN: u32 = 4;

pub const LAG: u32 = 5;

/// What `DOWN` says of a station that works.
pub const WORKS: u64 = 0;

/// What `DOWN` says of a station that stands still.
pub const STANDS_STILL: u64 = 1;

/// The word that counts how many entries went out at the front of level 0; the other levels follow.
pub const GONE: u32 = 6;

/// The line of the servers that serve nobody.
pub const FREE_SERVERS: u32 = 0;

/// The first line of level 0; the other levels follow.
pub const ENTRIES: u32 = 1;

/// How many lines a level has: for the jobs that wait, their births, since when and until when they wait.
pub const LINES_A_LEVEL: u32 = 4;

/// How many levels a line has at most: one for each priority.
pub const MOST_LEVELS: u32 = MOST_PRIORITY + 1;

/// Who is called first.
#[derive(Clone, Copy, Debug, PartialEq, Eq)]
pub enum Order {
    /// Who came first.
    First,
    /// Who came last.
    Last,
    /// The most urgent, and of these who came first.
    Priority,
}

/// From a tick on so many servers are open.
#[derive(Clone, Copy)]
pub struct Shift {
    pub at: u64,
    pub servers: u32,
}

/// For how long a station works and stands still, in turn.
#[derive(Drop)]
pub struct Breakdowns {
    pub up: DelayLaw,
    pub down: DelayLaw,
}

/// A station, whose servers serve jobs or are held by them.
#[derive(Drop)]
pub struct Station {
    pub name: Name,
    /// How many servers are open at the start.
    pub servers: u32,
    /// How many are ever open at most.
    pub most: u32,
    /// How many jobs wait at most, beside as many as spare servers are about to call.
    pub line: u32,
    pub order: Order,
    /// How many levels its line has: one, or by priority one more than the calmest priority of any class.
    pub levels: u32,
    /// The shifts, each later than the one before.
    pub shifts: Sequence<Shift>,
    /// After how many ticks the shifts come again.
    pub period: Option<u64>,
    pub breakdowns: Option<Breakdowns>,
}

impl Station {
    /// The word that counts how many entries went out at the front of a level.
    pub(crate) fn gone(&self, level: u32) -> u32
        requires { level < MOST_LEVELS }
        ensures { result ≡ gone_word level }
    {
        GONE + level
    }

    /// The word that keeps up to which lag the service on a server was put off.
    pub(crate) fn mark(&self, server: u32) -> u32
        requires levels { self.now.levels ≤ MOST_LEVELS }
        requires server { server < MOST_OPEN }
        ensures { result ≡ mark_word self.now server }
    {
        GONE + self.levels + server
    }

    /// The level of a job's class.
    pub(crate) fn level_of(&self, priority: u32) -> u32
        ensures { result ≡ level_of self.now.order priority }
    {
        match self.order {
            Order::Priority => priority,
            _ => 0,
        }
    }
}
