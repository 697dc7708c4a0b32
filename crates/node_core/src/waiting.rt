//! The events that wait in a queue: those of one object taken out, and all of them read out.
ghost use Rattle.std.specs.Prelude.{◌≡◌, ◌≤◌, ◌++◌, not, filter, ◌==◌, OnOk, OnErr};
ghost use Rattle.sim_spec.specs.Replay.{events_at};
ghost use Rattle.speedes_queue.specs.Queues.{pending_of};

use event_chain::Chain;
use model_core::{Event, OutOfMemory};
use speedes_queue::Queue;

/// Takes the events of an object out, in the order of their keys. Each event that waits is looked at and relinked once.
pub fn take_events(queue: &mut Queue, object: u32) -> Chain<Event>
    ensures own { result ≡ events_at object (pending_of queue.old) }
    ensures rest { pending_of queue.new ≡ filter (λ e. not (e.key.dest == object)) (pending_of queue.old) }
    ensures spare { queue.old.spare ≤ queue.new.spare }
{
    let _orderly = queue.len();
    let mut own = Chain::new();
    let mut others = Chain::new();
    while let Some(event) = queue.pop() {
        if event.get().key.dest == object {
            own.push_back(event);
        } else {
            others.push_back(event);
        }
    }
    queue.give_back(others);
    own
}

/// Appends the events of a queue in the order of their keys, or nothing where no memory is left. Each is taken out and
/// given back.
pub fn put_all(queue: &mut Queue, into: &mut Vec<Event>) -> Result<(), OutOfMemory>
    ensures ok { OnOk result (into.new.items ≡ into.old.items ++ pending_of queue.old) }
    ensures err { OnErr result (into.new.items ≡ into.old.items) }
    ensures same { pending_of queue.new ≡ pending_of queue.old }
    ensures spare { queue.old.spare ≤ queue.new.spare }
{
    into.reserve(queue.len())?;
    let mut hand = Chain::new();
    while let Some(event) = queue.pop() {
        into.push_reserved(*event.get());
        hand.push_back(event);
    }
    queue.give_back(hand);
    Ok(())
}
