//! What the tests share.
ghost use Rattle.std.specs.Prelude.{◌≡◌, ◌<◌, ◌≤◌, ◌^◌, length, IfOk};
ghost use Rattle.event_key.specs.Stamps.{time_part};

mod bags;
mod buffers;
mod cells;
mod changes;
mod command_line;
mod effects;
mod exchanges;
mod gathering;
mod horizons;
mod keys;
mod lanes;
mod lines;
mod models;
mod named;
mod phold;
mod queues;
mod states;
mod streams;
mod ticks;
mod totals;
mod turns;
mod words;

use event_chain::{Cell, Chain};
use event_key::{INITIAL, Key, stamp_of};
use model_core::Event;
use std::alloc::Global;
use std::process::Abort;
use std::test::Fail;

/// A list of one event, of a kind that tells it from others.
fn one_event(alloc: Global, kind: u32) -> Result<Chain<Event>, Fail>
    ensures { IfOk result (λ events. length events ≡ 1) }
{
    let key = Key {
        stamp: 0,
        rank: 0,
        dest: 0,
        src: 0,
        serial: 0,
    };
    let event = Event {
        key,
        kind,
        a: 0,
        b: 0,
    };
    let Ok(cell) = Cell::new(alloc, event) else {
        return Err(Fail::from("no memory"));
    };
    let mut events = Chain::new();
    events.push_back(cell);
    Ok(events)
}

/// The act at a place comes out as it is told. Whoever calls this owns what acts are done with, and an assertion there would be
/// dear to prove.
fn assert_act<R: Abort>(rt: &R, is_told: bool, place: usize) {
    assert!(rt; is_told, "act {place}");
}

/// A word that follows another (a linear congruential generator).
fn following(word: u64) -> u64 {
    word.wrapping_mul(6364136223846793005)
        .wrapping_add(1442695040888963407)
}

/// Stamps in their order.
#[derive(Drop)]
struct Sorted {
    stamps: Vec<u64>,
}

impl Sorted {
    fn new(alloc: Global) -> Sorted {
        Sorted {
            stamps: Vec::new(alloc),
        }
    }

    fn len(&self) -> usize {
        self.stamps.len()
    }

    /// Puts a stamp to its place.
    fn push(&mut self, stamp: u64) -> Result<(), Fail> {
        self.stamps.push(stamp)?;
        self.stamps.sort_unstable();
        Ok(())
    }

    /// Takes the first stamp.
    fn take(&mut self) -> Option<u64> {
        if self.stamps.is_empty() {
            return None;
        }
        Some(self.stamps.remove(0))
    }
}

/// The text with the first place of `old` replaced.
fn replaced(alloc: Global, text: &str, old: &str, new: &str) -> Result<String, Fail> {
    let (front, back) = text.split_once(old).ok_or("no such place")?;
    Ok(format!(in alloc; "{front}{new}{back}")?)
}

/// The key of an initial event of rank 0.
fn key(time: u64, step: u32, dest: u32) -> Key
    requires time { time < 2 ^ 47 }
    requires step { step ≤ 65535 }
    ensures time { time_part result.stamp ≡ time }
    ensures dest { result.dest ≡ dest }
{
    Key {
        stamp: stamp_of(time, step),
        rank: 0,
        dest,
        src: INITIAL,
        serial: 0,
    }
}
