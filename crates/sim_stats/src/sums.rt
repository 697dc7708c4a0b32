//! The sums of one object.
ghost use Rattle.std.specs.Prelude.{◌≡◌, ◌≤◌, ◌+◌, ◌^◌, ◌++◌, ◌∷◌, [], ℕ, List, OnOk, length};
ghost use Rattle.sim_stats.specs.Words.{is_arrival, is_service};

use crate::occupancy::Occupancy;
use model_core::{
    DONE_WORD, HELD_WORD, HOP_WORD, LEFT_WORD, LOST_WORD, MADE_WORD, OutOfMemory, Part,
    ROUTED_WORD, TAKEN_WORD, WAITING_WORD,
};
use std::alloc::Global;

/// What is summed up of one object.
#[derive(Clone, Copy, Debug, PartialEq, Eq)]
pub struct Sums {
    pub arrivals: u64,
    pub served: u64,
    pub lost: u64,
    /// Busy servers times the ticks for which they were busy.
    pub busy_ticks: u128,
    /// Waiting jobs times the ticks for which they waited.
    pub waiting_ticks: u128,
    /// Who is there, as the last word leaves it.
    pub occupancy: Occupancy,
    /// When the last word was told, in ticks, or 0 before the first.
    pub last: u64,
}

/// Whether a word tells that something comes to an object.
pub fn is_arrival(word: u32) -> bool
    ensures { result ≡ is_arrival word }
{
    matches!(
        word,
        HOP_WORD | TAKEN_WORD | WAITING_WORD | LOST_WORD | HELD_WORD | ROUTED_WORD | LEFT_WORD
    )
}

/// Whether a word tells that an object is done with something.
pub fn is_service(word: u32) -> bool
    ensures { result ≡ is_service word }
{
    matches!(
        word,
        HOP_WORD | MADE_WORD | DONE_WORD | HELD_WORD | ROUTED_WORD | LEFT_WORD
    )
}

impl Sums {
    ghost use Rattle.sim_stats.specs.Words.{TimedWord, words_at};
    ghost use Rattle.sim_stats.specs.Sums.{sums_of, IsWithin, sums_text};

    /// Nothing was told yet.
    pub fn none() -> Sums
        ensures { result ≡ sums_of [] }
    {
        Sums {
            arrivals: 0,
            served: 0,
            lost: 0,
            busy_ticks: 0,
            waiting_ticks: 0,
            occupancy: Occupancy::nobody(),
            last: 0,
        }
    }

    /// One word more, told at this time.
    fn add_word(&mut self, time: u64, word: u32)
        requires time { self.old.last ≤ time }
        requires room { IsWithin (2 ^ 33) self.old }
        ensures sums { (told : List TimedWord) → self.old ≡ sums_of told
            → self.new ≡ sums_of (told ++ record { time = time; word = word } ∷ []) }
        ensures last { self.new.last ≡ time }
        ensures within { (words : ℕ) → IsWithin words self.old → IsWithin (words + 1) self.new }
    {
        let ticks = u128::from(time - self.last);
        self.busy_ticks += ticks * u128::from(self.occupancy.busy);
        self.waiting_ticks += ticks * u128::from(self.occupancy.waiting);
        self.last = time;
        self.occupancy = self.occupancy.after(word);
        self.arrivals += u64::from(is_arrival(word));
        self.served += u64::from(is_service(word));
        self.lost += u64::from(word == LOST_WORD);
    }

    /// What a record at this time tells.
    pub fn add(&mut self, time: u64, parts: &[Part])
        requires few { length parts.now ≤ 4 }
        requires time { self.old.last ≤ time }
        requires room { IsWithin (2 ^ 32) self.old }
        ensures sums { (told : List TimedWord) → self.old ≡ sums_of told → self.new ≡ sums_of (told ++ words_at time parts.now) }
        ensures last { self.new.last ≤ time }
        ensures within { (words : ℕ) → IsWithin words self.old → IsWithin (words + 4) self.new }
    {
        for part in parts {
            self.add_word(time, part.word);
        }
    }

    /// Appends what is printed of the sums. Where memory runs out, it may have appended some of it.
    #[tactic(auto, unfolding(crate::specs::Sums::sums_text))]
    pub fn put(&self, alloc: Global, into: &mut Vec<u8>) -> Result<(), OutOfMemory>
        ensures { OnOk result (into.new.items ≡ into.old.items ++ sums_text self.now) }
    {
        let text = format!(in alloc;
            " arrivals {} served {} lost {} busy {} waiting {}\n",
            self.arrivals, self.served, self.lost, self.busy_ticks, self.waiting_ticks
        )?;
        into.extend_from_slice(text.as_bytes())?;
        Ok(())
    }
}
