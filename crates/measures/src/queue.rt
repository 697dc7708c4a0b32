//! The hold model: each step takes the least of the pending events and puts in another one, a random delay
//! later (Jones, "An Empirical Comparison of Priority-Queue and Event-Set Implementations", 1986).
ghost use Rattle.std.specs.Prelude.{◌≡◌, ◌+◌, ◌<◌, ◌^◌, OnOk};
ghost use Rattle.speedes_queue.specs.Serials.{HasSerialsBelow};

use event_chain::Cell;
use event_key::Key;
use model_core::{Event, OutOfMemory};
use rand_core::{Rng, SeedableRng};
use rand_xoshiro::SplitMix64;
use speedes_queue::Queue;
use std::alloc::Global;

/// An event at a stamp, with a serial of its own.
fn event(stamp: u64, serial: u64) -> Event
    ensures { result.key.serial ≡ serial }
{
    let key = Key {
        stamp,
        rank: 0,
        dest: 0,
        src: 0,
        serial,
    };
    Event {
        key,
        kind: 0,
        a: 0,
        b: 0,
    }
}

/// Pushes an event at a stamp, with the next serial.
fn push(alloc: Global, queue: &mut Queue, stamp: u64, serial: u64) -> Result<(), OutOfMemory>
    requires below { HasSerialsBelow serial queue.old }
    requires serial { serial < 2 ^ 33 }
    ensures { OnOk result (HasSerialsBelow (serial + 1) queue.new) }
{
    queue.reserve(alloc, 1)?;
    let Ok(cell) = Cell::new(alloc, event(stamp, serial)) else {
        return Err(OutOfMemory);
    };
    queue.push(cell);
    Ok(())
}

/// A random delay, from 1 to 2^30.
fn delay(random: &mut SplitMix64) -> u64
    ensures { result < 2 ^ 31 }
{
    1 + (random.next_u64() >> 34)
}

/// A checksum of the stamps that are popped in so many steps, with so many events pending.
pub fn hold(alloc: Global, pending: u32, steps: u32) -> Result<u64, OutOfMemory> {
    let mut queue = Queue::new();
    let mut random = SplitMix64::seed_from_u64(1);
    let first = u64::from(pending);
    for serial in 0..first {
        push(alloc, &mut queue, delay(&mut random), serial)?;
    }
    let mut checksum: u64 = 0;
    for serial in first..first + u64::from(steps) {
        let Some(cell) = queue.pop() else {
            break;
        };
        let stamp = cell.into_inner().key.stamp;
        checksum = checksum.wrapping_mul(31).wrapping_add(stamp);
        push(
            alloc,
            &mut queue,
            stamp.saturating_add(delay(&mut random)),
            serial,
        )?;
    }
    Ok(checksum)
}
