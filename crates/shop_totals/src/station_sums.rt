//! The sums of a station.
ghost use Rattle.std.specs.Prelude.{◌≡◌, ◌<◌, ◌≤◌, ◌+◌, ◌^◌, ◌++◌, ◌∷◌, [], ℕ, List};
ghost use Rattle.shop_totals.specs.Flows.{flow_of, IsFlowWithin};
ghost use Rattle.shop_totals.specs.Told.{TimedPart, told_from, AreBy};
ghost use Rattle.shop_totals.specs.Sums.{after_busy, after_waiting, after_open, after_down, station_sums_of, IsWithin};

use crate::flow::Flow;
use crate::kept::{Kept, ticks_between};
use model_core::{
    CALLED_WORD, DONE_WORD, DOWN_WORD, FREED_WORD, OPENED_WORD, Part, RENEGED_WORD, TAKEN_WORD,
    UP_WORD, WAITING_WORD,
};

/// What is summed up of a station: what came of its jobs, and how many servers were busy and open, how many jobs waited,
/// and whether it stood still, each over the ticks from a first one on.
#[derive(Clone, Copy, Debug, PartialEq, Eq)]
pub struct StationSums {
    pub first: u64,
    pub clock: u64,
    pub flow: Flow,
    pub busy: Kept,
    pub waiting: Kept,
    pub opened: Kept,
    pub down: Kept,
}

/// How many servers are busy after a part.
fn after_busy(busy: u64, part: Part) -> u64
    requires { busy < 2 ^ 63 }
    ensures number { result ≡ after_busy busy part }
    ensures few { result ≤ busy + 1 }
{
    match part.word {
        TAKEN_WORD | CALLED_WORD => busy + 1,
        DONE_WORD | FREED_WORD => busy.saturating_sub(1),
        _ => busy,
    }
}

/// How many jobs wait after a part.
fn after_waiting(waiting: u64, part: Part) -> u64
    requires { waiting < 2 ^ 63 }
    ensures number { result ≡ after_waiting waiting part }
    ensures few { result ≤ waiting + 1 }
{
    match part.word {
        WAITING_WORD => waiting + 1,
        CALLED_WORD | RENEGED_WORD => waiting.saturating_sub(1),
        _ => waiting,
    }
}

/// How many servers are open after a part.
fn after_open(opened: u64, part: Part) -> u64
    ensures { result ≡ after_open opened part }
{
    if part.word == OPENED_WORD {
        part.a
    } else {
        opened
    }
}

/// 1 where the station stands still after a part, and else 0.
fn after_down(down: u64, part: Part) -> u64
    ensures { result ≡ after_down down part }
{
    match part.word {
        DOWN_WORD => 1,
        UP_WORD => 0,
        _ => down,
    }
}

impl StationSums {
    /// Nothing was told yet of a station with so many servers open, of which what counts is told from a tick on.
    pub fn new(first: u64, servers: u64) -> StationSums
        ensures sums { result ≡ station_sums_of first servers [] 0 }
        ensures within { IsWithin 0 result }
        ensures clock { result.clock ≡ 0 }
        ensures first { result.first ≡ first }
    {
        StationSums {
            first,
            clock: 0,
            flow: Flow::none(),
            busy: Kept::new(0),
            waiting: Kept::new(0),
            opened: Kept::new(servers),
            down: Kept::new(0),
        }
    }

    /// The time goes on.
    pub fn pass(self, time: u64) -> StationSums
        requires time { self.clock ≤ time }
        requires soon { time < 2 ^ 48 }
        requires room { IsWithin (2 ^ 62) self }
        ensures sums { (servers : ℕ) (told : List TimedPart) → AreBy self.clock told → self ≡ station_sums_of self.first servers told self.clock
            → result ≡ station_sums_of self.first servers told time }
        ensures within { (parts : ℕ) → IsWithin parts self → IsWithin parts result }
        ensures clock { result.clock ≡ time }
        ensures first { result.first ≡ self.first }
    {
        let ticks = ticks_between(self.first, self.clock, time);
        StationSums {
            clock: time,
            busy: self.busy.pass(ticks),
            waiting: self.waiting.pass(ticks),
            opened: self.opened.pass(ticks),
            down: self.down.pass(ticks),
            ..self
        }
    }

    /// What came of the jobs, after a part that is told now. It counts from the first tick on.
    fn flow_after(&self, part: Part) -> Flow
        requires { IsFlowWithin (2 ^ 62) self.now.flow }
        ensures within { (words : ℕ) → IsFlowWithin words self.now.flow → IsFlowWithin (words + 1) result }
        ensures flow { (told : List TimedPart) → self.now.flow ≡ flow_of (told_from self.now.first told)
            → result ≡ flow_of (told_from self.now.first (told ++ record { time = self.now.clock; part = part } ∷ [])) }
    {
        if self.clock < self.first {
            return self.flow;
        }
        self.flow.and(part.word)
    }

    /// A part is told, now.
    pub fn and(self, part: Part) -> StationSums
        requires room { IsWithin (2 ^ 62) self }
        ensures within { (parts : ℕ) → IsWithin parts self → IsWithin (parts + 1) result }
        ensures clock { result.clock ≡ self.clock }
        ensures first { result.first ≡ self.first }
        ensures sums { (servers : ℕ) (told : List TimedPart) → AreBy self.clock told → self ≡ station_sums_of self.first servers told self.clock
            → result ≡ station_sums_of self.first servers (told ++ record { time = self.clock; part = part } ∷ []) self.clock }
    {
        StationSums {
            flow: self.flow_after(part),
            busy: Kept {
                number: after_busy(self.busy.number, part),
                ..self.busy
            },
            waiting: Kept {
                number: after_waiting(self.waiting.number, part),
                ..self.waiting
            },
            opened: Kept {
                number: after_open(self.opened.number, part),
                ..self.opened
            },
            down: Kept {
                number: after_down(self.down.number, part),
                ..self.down
            },
            ..self
        }
    }
}
