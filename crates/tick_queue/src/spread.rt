//! Events that go to the slots of their ticks.
ghost use Rattle.std.specs.Prelude.{◌≡◌, ◌+◌, ◌<◌, ◌≤◌, ◌^◌, IsPermutation};
ghost use Rattle.event_key.specs.Stamps.{time_part};
ghost use Rattle.tick_queue.specs.Digits.{InSlot};
ghost use Rattle.key_order.specs.Joined.{joined};
ghost use Rattle.tick_queue.specs.Levels.{PutsIn, Spreads, StandIn};

use crate::digits::slot_of;
use crate::slots::Slots;
use event_key::time_of;
use model_core::Event;

/// The slot of an event of this tick or a later one.
#[inline(always)]
fn slot_for(now: u64, event: &Event) -> usize
    requires { now ≤ time_part event.now.key.stamp }
    ensures slot { result < 512 }
    ensures at { InSlot now result (time_part event.now.key.stamp) }
{
    slot_of(now, time_of(event.key.stamp))
}

/// Puts an event of this tick or a later one into its slot.
pub fn place(slots: &mut Slots, now: u64, event: Event)
    requires from { now ≤ time_part event.key.stamp }
    requires room { 1 ≤ slots.old.spare }
    ensures puts { PutsIn now slots.old.slots slots.new.slots event }
    ensures spare { slots.new.spare + 1 ≡ slots.old.spare }
{
    slots.put(slot_for(now, &event), event);
}

/// Puts the events of a slot into others.
pub fn spread(slots: &mut Slots, now: u64, slot: usize)
    requires slot { slot < 512 }
    requires begins { Spreads now slot slots.old.slots }
    ensures stand { StandIn now slots.new.slots }
    ensures events { IsPermutation (joined slots.old.slots) (joined slots.new.slots) }
    ensures spare { slots.new.spare ≡ slots.old.spare }
{
    while let Some(event) = slots.front(slot) {
        let to = slot_for(now, event);
        slots.move_front(slot, to);
    }
}
