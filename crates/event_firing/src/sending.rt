//! What an event sends.
ghost use Rattle.std.specs.Prelude.{◌≡◌, ◌<◌, ◌≤◌, ◌^◌, false};
ghost use Rattle.event_key.specs.Stamps.{time_part, has_no_step};
ghost use Rattle.sim_spec.specs.Firing.{has_endless_chain, emission};

use event_key::{Key, later, step_of};
use model_core::{Event, Send};

/// Whether something is sent without delay from the last step of a tick, as a chain of events does that never leaves it.
#[tactic(auto, unfolding(sim_spec::specs::Firing::has_endless_chain, event_key::specs::Stamps::has_no_step))]
#[inline(always)]
pub fn has_endless_chain(stamp: u64, sends: &[Send]) -> bool
    ensures { result ≡ has_endless_chain stamp sends.now }
{
    sends
        .iter()
        .any(|send| send.delay == 0 && step_of(stamp) == 65535)
}

/// The event that an event sends, with its serial.
#[inline(always)]
pub fn sent_event(cause: &Key, serial: u64, send: &Send) -> Event
    requires time { time_part cause.now.stamp < 2 ^ 46 }
    requires delay { send.now.delay ≤ 2 ^ 40 }
    requires stepping { has_no_step cause.now.stamp send.now.delay ≡ false }
    ensures { result ≡ emission cause.now.stamp cause.now.dest serial send.now }
{
    let Some(stamp) = later(cause.stamp, send.delay) else {
        unreachable!()
    };
    let key = Key {
        stamp,
        rank: send.rank,
        dest: send.dest,
        src: cause.dest,
        serial,
    };
    Event {
        key,
        kind: send.kind,
        a: send.a,
        b: send.b,
    }
}
