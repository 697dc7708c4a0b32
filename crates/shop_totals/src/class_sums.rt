//! The sums of a class.
ghost use Rattle.std.specs.Prelude.{◌≡◌, ◌<◌, ◌≤◌, ◌+◌, ◌^◌, ◌++◌, ◌∷◌, [], ℕ, List, length};
ghost use Rattle.shop_totals.specs.Records.{parts_at};
ghost use Rattle.shop_totals.specs.Summed.{SumsUpClass};
ghost use Rattle.shop_totals.specs.Told.{TimedPart, AreBy};
ghost use Rattle.shop_totals.specs.Sums.{after_inside, age_told, class_sums_of, IsClassWithin};

use crate::kept::{Kept, ticks_between};
use model_core::{DROPPED_WORD, LEFT_WORD, MADE_WORD, OVERDUE_WORD, Part};

/// What is summed up of a class: how many of its jobs were made, left, were given up and left late, how old those were in
/// all that left, and how many were inside, over the ticks from a first one on.
#[derive(Clone, Copy, Debug, PartialEq, Eq)]
pub struct ClassSums {
    pub first: u64,
    pub clock: u64,
    pub made: u64,
    pub left: u64,
    pub dropped: u64,
    pub late: u64,
    pub ages: u128,
    pub inside: Kept,
}

/// How many jobs are inside after a part.
fn after_inside(inside: u64, part: Part) -> u64
    requires { inside < 2 ^ 63 }
    ensures number { result ≡ after_inside inside part }
    ensures few { result ≤ inside + 1 }
{
    match part.word {
        MADE_WORD => inside + 1,
        LEFT_WORD | DROPPED_WORD => inside.saturating_sub(1),
        _ => inside,
    }
}

/// How old a job is that leaves, as a part tells it.
fn age_told(part: Part) -> u64
    ensures { result ≡ age_told part }
{
    match part.word {
        LEFT_WORD => part.b,
        _ => 0,
    }
}

impl ClassSums {
    /// Nothing was told yet; what counts is told from a tick on.
    pub fn new(first: u64) -> ClassSums
        ensures sums { result ≡ class_sums_of first [] 0 }
        ensures within { IsClassWithin 0 result }
        ensures clock { result.clock ≡ 0 }
        ensures first { result.first ≡ first }
    {
        ClassSums {
            first,
            clock: 0,
            made: 0,
            left: 0,
            dropped: 0,
            late: 0,
            ages: 0,
            inside: Kept::new(0),
        }
    }

    /// The time goes on.
    pub fn pass(self, time: u64) -> ClassSums
        requires time { self.clock ≤ time }
        requires soon { time < 2 ^ 48 }
        requires room { IsClassWithin (2 ^ 62) self }
        ensures sums { (told : List TimedPart) → AreBy self.clock told → self ≡ class_sums_of self.first told self.clock
            → result ≡ class_sums_of self.first told time }
        ensures within { (parts : ℕ) → IsClassWithin parts self → IsClassWithin parts result }
        ensures clock { result.clock ≡ time }
        ensures first { result.first ≡ self.first }
    {
        let ticks = ticks_between(self.first, self.clock, time);
        ClassSums {
            clock: time,
            inside: self.inside.pass(ticks),
            ..self
        }
    }

    /// The counts after a part that is told now. It counts from the first tick on.
    fn counted(self, part: Part) -> ClassSums
        requires { IsClassWithin (2 ^ 62) self }
        ensures clock { result.clock ≡ self.clock }
        ensures first { result.first ≡ self.first }
        ensures within { (parts : ℕ) → IsClassWithin parts self → IsClassWithin (parts + 1) result }
        ensures sums { (told : List TimedPart) → self ≡ class_sums_of self.first told self.clock
            → result ≡ record (class_sums_of self.first (told ++ record { time = self.clock; part = part } ∷ []) self.clock) { inside = self.inside } }
    {
        if self.clock < self.first {
            return self;
        }
        ClassSums {
            made: self.made + u64::from(part.word == MADE_WORD),
            left: self.left + u64::from(part.word == LEFT_WORD),
            dropped: self.dropped + u64::from(part.word == DROPPED_WORD),
            late: self.late + u64::from(part.word == OVERDUE_WORD),
            ages: self.ages + u128::from(age_told(part)),
            ..self
        }
    }

    /// A part is told, now.
    pub fn and(self, part: Part) -> ClassSums
        requires room { IsClassWithin (2 ^ 62) self }
        ensures within { (parts : ℕ) → IsClassWithin parts self → IsClassWithin (parts + 1) result }
        ensures clock { result.clock ≡ self.clock }
        ensures first { result.first ≡ self.first }
        ensures sums { (told : List TimedPart) → AreBy self.clock told → self ≡ class_sums_of self.first told self.clock
            → result ≡ class_sums_of self.first (told ++ record { time = self.clock; part = part } ∷ []) self.clock }
    {
        let inside = Kept {
            number: after_inside(self.inside.number, part),
            ..self.inside
        };
        ClassSums {
            inside,
            ..self.counted(part)
        }
    }

    /// Parts are told, at a time. It takes time for these parts alone.
    pub fn and_all(self, time: u64, parts: &[Part]) -> ClassSums
        requires time { self.clock ≤ time }
        requires soon { time < 2 ^ 48 }
        requires few { length parts.now ≤ 4 }
        requires room { IsClassWithin (2 ^ 61) self }
        ensures sums { (first : ℕ) (told : List TimedPart) (most : ℕ) → SumsUpClass first told most self
            → SumsUpClass first (told ++ parts_at time parts.now) (most + 4) result }
        ensures clock { result.clock ≡ time }
    {
        let mut sums = self.pass(time);
        for part in parts {
            sums = sums.and(*part);
        }
        sums
    }
}
