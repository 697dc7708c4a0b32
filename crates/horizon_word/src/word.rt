//! The shared word, and its seats.
ghost use Rattle.std.specs.Prelude.{◌≡◌, ◌≤◌, All, IfOk, OnOk, vec_len};
ghost use Rattle.horizon_word.specs.Views.{IsSeatOf, new_seat, seat_after_lower, seat_after_read};

use crate::note::{Note, Opening};
use crate::rule::{Copied, Falling, Lower, Read};
use atomic_table::{Seat, Table};
use delta_exchange::OutOfMemory;
use std::alloc::Global;
use std::marker::Model;

/// A number that threads share: the least stamp that any seat has offered, at first the start. It only falls.
///
/// A cycle of Breathing Time Buckets ends at its event horizon, the least stamp of the events that it generates
/// (J. S. Steinman, "SPEEDES: A Multiple-Synchronization Environment for Parallel Discrete-Event Simulation",
/// International Journal in Computer Simulation 2, 1992). Here threads share that horizon while it is being found.
///
/// Contracts see which word it is, and not what it holds, which no thread knows for longer than one step.
#[derive(Drop)]
pub struct HorizonWord {
    table: Table<(), Note, Opening, Falling, Global>,
}

impl Model for HorizonWord {
    ghost use Rattle.std.specs.Prelude.{◌≡◌};
    ghost use Rattle.horizon_word.specs.Views.{WordId};

    ghost Value = { WordId };

    ghost view = { λ word. word.table.shared.table_id };

    ghost invariant = { λ word. word.table.shared.table_id.words ≡ 1 };
}

/// The right to step on a word. Contracts see which word that is, and the seat's view of it: the number that the word
/// was made with, the least stamp that the seat has offered, its last answer, and how many steps it took. It takes no
/// bytes, so that all of this stands in proofs alone.
#[derive(Drop)]
pub struct WordSeat {
    seat: Seat<(), Note>,
}

impl Model for WordSeat {
    ghost use Rattle.horizon_word.specs.Views.{SeatView};

    ghost Value = { SeatView };

    ghost view = { λ held. record {
      word = held.seat.table_id;
      floor = held.seat.me.0.floor;
      least = held.seat.me.0.least;
      seen = held.seat.me.0.own.seen;
      taken = held.seat.me.0.own.taken;
    } };
}

impl HorizonWord {
    /// A word that stands at `start`, and so many seats of it. No stamp below `floor` is ever offered to it.
    /// It answers an error only for want of memory.
    pub fn begin(
        alloc: Global,
        floor: u64,
        start: u64,
        seats: usize,
    ) -> Result<(HorizonWord, Vec<WordSeat>), OutOfMemory>
        requires start { floor ≤ start }
        requires seats { 1 ≤ seats }
        ensures count { IfOk result (λ made. vec_len made.1 ≡ seats) }
        ensures new { IfOk result (λ made. All (λ seat. seat ≡ new_seat made.0 floor start) made.1.items) }
    {
        let mut all = Vec::with_capacity(alloc, seats)?;
        let word = HorizonWord::begin_with(alloc, floor, start, seats, &mut all)?;
        Ok((word, all))
    }

    /// The same, but the seats come into a list that serves word after word: what stood in it goes, and it takes memory
    /// only where its room is short.
    pub fn begin_with(
        alloc: Global,
        floor: u64,
        start: u64,
        seats: usize,
        all: &mut Vec<WordSeat>,
    ) -> Result<HorizonWord, OutOfMemory>
        requires start { floor ≤ start }
        requires seats { 1 ≤ seats }
        ensures count { OnOk result (vec_len all.new ≡ seats) }
        ensures new { IfOk result (λ word. All (λ seat. seat ≡ new_seat word floor start) all.new.items) }
    {
        let (table, mut first) = Table::of_words(alloc, &[start], &Opening { floor, start })?;
        all.clear();
        for _ in 1..seats {
            let seat = table.shared.split_seat::<Copied>(&mut first);
            all.push(WordSeat { seat })?;
        }
        all.push(WordSeat { seat: first })?;
        Ok(HorizonWord { table })
    }

    /// Offers a stamp, by one fetch-min, and answers the word that it left: the lesser of the word before and the
    /// stamp. So it answers at most the stamp, and at most what the seat had offered and was answered before. It never
    /// waits.
    pub fn lower(&self, seat: &mut WordSeat, stamp: u64) -> u64
        requires seat { IsSeatOf self.now seat.old }
        requires stamp { seat.old.floor ≤ stamp }
        ensures floor { seat.old.floor ≤ result }
        ensures stamp { result ≤ stamp }
        ensures least { result ≤ seat.old.least }
        ensures seen { result ≤ seat.old.seen }
        ensures seat { seat.new ≡ seat_after_lower seat.old stamp result }
    {
        let before = self
            .table
            .shared
            .fetch_min::<Lower>(&mut seat.seat, 0, stamp);
        before.min(stamp)
    }

    /// Answers the word, by one load. It never waits.
    pub fn read(&self, seat: &mut WordSeat) -> u64
        requires { IsSeatOf self.now seat.old }
        ensures floor { seat.old.floor ≤ result }
        ensures least { result ≤ seat.old.least }
        ensures seen { result ≤ seat.old.seen }
        ensures seat { seat.new ≡ seat_after_read seat.old result }
    {
        self.table.shared.load::<Read>(&mut seat.seat, 0)
    }
}
