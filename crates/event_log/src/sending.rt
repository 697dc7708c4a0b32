//! What an event sends, on its way home.
ghost use Rattle.std.specs.Prelude.{◌≡◌, ◌<◌, ◌≤◌, ◌+◌, ◌^◌, ◌++◌, length, map, false};
ghost use Rattle.std.specs.List.{AllByRecursion};
ghost use Rattle.event_key.specs.Stamps.{time_part};
ghost use Rattle.event_key.specs.declared.stamp.TheConstants.{NO_STAMP};
ghost use Rattle.key_order.specs.Stamps.{least_stamp};
ghost use Rattle.model_core.specs.Meaning.{SendsInRange};
ghost use Rattle.sim_spec.specs.Firing.{has_endless_chain, emissions};
ghost use Rattle.event_log.specs.News.{homed};

use crate::outbox::Outbox;
use event_chain::CellPool;
use event_firing::sent_event;
use event_key::{Key, NO_STAMP};
use model_core::{Event, Send};

/// Puts what an event sends into the chains of its homes, with serials from this one on, in cells of a pool. Answers the
/// least of their stamps, or `NO_STAMP`.
pub fn hold_all(
    outbox: &mut Outbox,
    pool: &mut CellPool<Event>,
    homes: &[u32],
    cause: &Key,
    serial: u64,
    sends: &[Send],
) -> u64
    requires time { time_part cause.now.stamp < 2 ^ 46 }
    requires stepping { has_endless_chain cause.now.stamp sends.now ≡ false }
    requires ranged { SendsInRange (length homes.now) sends.now }
    requires homes { AllByRecursion (λ home. home < outbox.old.nodes) homes.now }
    requires serials { serial + length sends.now < 2 ^ 64 }
    requires cells { length sends.now ≤ pool.old }
    requires room { length sends.now ≤ outbox.old.room }
    requires few { length outbox.old.sent + length sends.now < 2 ^ 60 }
    ensures sent { outbox.new.sent ≡ outbox.old.sent ++ map (homed homes.now) (emissions cause.now.stamp cause.now.dest serial sends.now) }
    ensures nodes { outbox.new.nodes ≡ outbox.old.nodes }
    ensures least { result ≡ least_stamp NO_STAMP (emissions cause.now.stamp cause.now.dest serial sends.now) }
    ensures cells { pool.new + length sends.now ≡ pool.old }
{
    let mut least = NO_STAMP;
    let mut next_serial = serial;
    for send in sends {
        let event = sent_event(cause, next_serial, send);
        least = least.min(event.key.stamp);
        outbox.push(homes[send.dest as usize], pool.fill(event));
        next_serial += 1;
    }
    least
}
