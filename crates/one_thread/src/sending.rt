//! What an event sends, on its way to the queue.
ghost use Rattle.std.specs.Prelude.{◌≡◌, ℕ, ◌<◌, ◌+◌, ◌^◌, length, OnOk, false};
ghost use Rattle.event_key.specs.Stamps.{time_part};
ghost use Rattle.key_order.specs.Pending.{enqueue_all};
ghost use Rattle.key_order.specs.Serials.{SerialsBelow};
ghost use Rattle.key_order.specs.Stamps.{least_stamp};
ghost use Rattle.model_core.specs.Meaning.{SendsInRange};
ghost use Rattle.sim_spec.specs.Firing.{has_endless_chain, emissions};

use event_firing::sent_event;
use event_key::Key;
use model_core::{OutOfMemory, Send};
use tick_queue::TickQueue;

/// Puts what an event sends among the pending events, with serials from this one on.
#[inline(always)]
pub fn send_all(
    queue: &mut TickQueue,
    cause: &Key,
    serial: u64,
    sends: &[Send],
) -> Result<(), OutOfMemory>
    requires time { time_part cause.now.stamp < 2 ^ 46 }
    requires stepping { has_endless_chain cause.now.stamp sends.now ≡ false }
    requires ranged { (objects : ℕ) × SendsInRange objects sends.now }
    requires serials { serial + length sends.now < 2 ^ 64 }
    requires pending { SerialsBelow cause.now.dest serial queue.old.pending }
    requires room { length queue.old.pending + length sends.now < 2 ^ 60 }
    ensures pending { OnOk result (queue.new.pending
        ≡ enqueue_all (emissions cause.now.stamp cause.now.dest serial sends.now) queue.old.pending) }
    ensures fresh_least { OnOk result (queue.new.fresh_least
        ≡ least_stamp queue.old.fresh_least (emissions cause.now.stamp cause.now.dest serial sends.now)) }
{
    let mut next_serial = serial;
    for send in sends {
        queue.push(sent_event(cause, next_serial, send))?;
        next_serial += 1;
    }
    Ok(())
}
