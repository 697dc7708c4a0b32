//! The sums of one object within a window of time.
ghost use Rattle.std.specs.Prelude.{◌≡◌, ◌≤◌, ◌+◌, ◌^◌, ◌++◌, ◌∷◌, [], ℕ, List, length};
ghost use Rattle.replications.specs.Windows.{no_sums};

use crate::left::Left;
use crate::span::Span;
use model_core::{LEFT_WORD, LOST_WORD, Part};
use sim_stats::{Occupancy, is_arrival, is_service};

/// What is summed up of an object within a window of time.
#[derive(Clone, Copy, Debug, PartialEq, Eq)]
pub struct Columns {
    /// How many jobs came to it, were served there, and were turned away.
    pub arrivals: u64,
    pub served: u64,
    pub lost: u64,
    /// Busy servers times the ticks for which they were busy, summed up: in server ticks.
    pub busy: u128,
    /// Waiting jobs times the ticks for which they waited, summed up: in job ticks.
    pub waiting: u128,
    /// The sum of the ages of the jobs that left there, in ticks.
    pub age: u128,
    /// The most jobs that waited at once.
    pub longest: u64,
}

impl Columns {
    /// The sums of no tick.
    fn none() -> Columns
        ensures { result ≡ no_sums }
    {
        Columns {
            arrivals: 0,
            served: 0,
            lost: 0,
            busy: 0,
            waiting: 0,
            age: 0,
            longest: 0,
        }
    }
}

/// What is known of an object within a window of time, as far as it was told.
#[derive(Clone, Copy, Debug, PartialEq, Eq)]
pub struct Window {
    /// Up to the last part that was told. The longest line is here that of the parts within the window alone.
    pub sums: Columns,
    /// How many jobs wait as the window begins.
    pub begins: u64,
    /// Who is there, as the last part leaves it.
    pub left: Left,
}

impl Window {
    ghost use Rattle.replications.specs.Parts.{TimedPart, parts_at};
    ghost use Rattle.replications.specs.Windows.{IsWithin, counted, passed, window_of, window_sums};

    /// Nothing was told yet.
    pub fn none() -> Window
        ensures { (first_tick : ℕ) → result ≡ window_of first_tick [] }
    {
        Window {
            sums: Columns::none(),
            begins: 0,
            left: Left {
                since: 0,
                occupancy: Occupancy::nobody(),
            },
        }
    }

    /// Time goes on to a tick: who is there stays until then.
    fn pass(&mut self, first_tick: u64, time: u64)
        requires time { time ≤ 2 ^ 48 }
        requires room { IsWithin (2 ^ 34) self.old }
        ensures passed { self.new ≡ passed first_tick time self.old }
        ensures busy { self.new.sums.busy ≤ self.old.sums.busy + 2 ^ 82 }
        ensures waiting { self.new.sums.waiting ≤ self.old.sums.waiting + 2 ^ 82 }
    {
        let ticks = u128::from(time.saturating_sub(self.left.since.max(first_tick)));
        self.sums.busy += ticks * u128::from(self.left.occupancy.busy);
        self.sums.waiting += ticks * u128::from(self.left.occupancy.waiting);
    }

    /// A part within the window counts.
    fn count(&mut self, part: &Part)
        requires { IsWithin (2 ^ 34) self.old }
        ensures counted { self.new ≡ counted part.now self.old }
        ensures age { self.new.sums.age ≤ self.old.sums.age + 2 ^ 64 }
    {
        self.sums.arrivals += u64::from(is_arrival(part.word));
        self.sums.served += u64::from(is_service(part.word));
        self.sums.lost += u64::from(part.word == LOST_WORD);
        self.sums.age += if part.word == LEFT_WORD {
            u128::from(part.b)
        } else {
            0
        };
        self.sums.longest = self.sums.longest.max(self.left.occupancy.waiting);
    }

    /// One part more, told at this time, of a window that begins at `first_tick`.
    fn add_part(&mut self, first_tick: u64, time: u64, part: &Part)
        requires time { time ≤ 2 ^ 48 }
        requires room { IsWithin (2 ^ 33) self.old }
        ensures sums { (told : List TimedPart) → self.old ≡ window_of first_tick told
            → self.new ≡ window_of first_tick (told ++ record { time = time; part = part.now } ∷ []) }
        ensures within { (parts : ℕ) → IsWithin parts self.old → IsWithin (parts + 1) self.new }
    {
        self.pass(first_tick, time);
        let occupancy = self.left.occupancy.after(part.word);
        self.left = Left {
            since: time,
            occupancy,
        };
        if time < first_tick {
            self.begins = occupancy.waiting;
        } else {
            self.count(part);
        }
    }

    /// What a record at this time tells, of a window that begins at `first_tick`.
    pub fn add(&mut self, first_tick: u64, time: u64, parts: &[Part])
        requires few { length parts.now ≤ 4 }
        requires time { time ≤ 2 ^ 48 }
        requires room { IsWithin (2 ^ 32) self.old }
        ensures sums { (told : List TimedPart) → self.old ≡ window_of first_tick told
            → self.new ≡ window_of first_tick (told ++ parts_at time parts.now) }
        ensures within { (parts : ℕ) → IsWithin parts self.old → IsWithin (parts + 4) self.new }
    {
        for part in parts {
            self.add_part(first_tick, time, part);
        }
    }

    /// The sums of a window that ends: all are 0 where it has no tick. It has to begin where the parts were told to begin.
    pub fn close(&self, span: Span) -> Columns
        requires last_tick { span.last_tick ≤ 2 ^ 48 }
        requires room { IsWithin (2 ^ 33) self.now }
        ensures { (told : List TimedPart) → self.now ≡ window_of span.first_tick told → result ≡ window_sums span.first_tick span.last_tick told }
    {
        if span.last_tick < span.first_tick {
            return Columns::none();
        }
        let mut all = *self;
        all.pass(span.first_tick, span.last_tick);
        Columns {
            longest: all.begins.max(all.sums.longest),
            ..all.sums
        }
    }
}
