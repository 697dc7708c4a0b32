//! Events in slots, of which the first that isn't empty is found at once.
ghost use Rattle.std.specs.Prelude.{◌≡◌, ◌≢◌, ◌+◌, ◌<◌, ◌≤◌, [], ◌∷◌, ◌++◌, length, IfOk, OnOk, OnErr, IfSome, IfNone, slice_set, slice_index_or};
ghost use Rattle.model_core.specs.declared.event.Event.{Event};
ghost use Rattle.event_bags.specs.Views.{HasFront, MovesFront};
ghost use Rattle.tick_queue.specs.Slots.{AllEmpty, IsFirst};

use crate::marks::{first_marked, mark, unmark};
use delta_exchange::OutOfMemory;
use event_bags::Bags;
use model_core::Event;
use std::alloc::Global;
use std::marker::Model;

/// How many slots there are: eight levels of 64.
const SLOTS: usize = 512;

/// The events of each slot. Contracts see them as a list of lists, and for how many more events there is room.
#[derive(Drop)]
pub struct Slots {
    // a bit for each slot that isn't empty
    marks: [u64; 8],
    bags: Bags<Event>,
}

impl Model for Slots {
    ghost use Rattle.tick_queue.specs.Slots.{SlotsView, AreSlots};

    ghost Value = { SlotsView };

    ghost view = { λ s. record { slots = s.bags.bags; spare = s.bags.spare } };

    ghost invariant = { λ s. AreSlots s.marks s.bags.bags };
}

impl Slots {
    /// Empty slots.
    pub fn new(alloc: Global) -> Result<Slots, OutOfMemory>
        ensures { IfOk result (λ new. AllEmpty new.slots) }
    {
        Ok(Slots {
            marks: [0; 8],
            bags: Bags::new(alloc, SLOTS)?,
        })
    }

    /// Makes room for so many more events.
    #[inline(always)]
    pub fn reserve(&mut self, more: usize) -> Result<(), OutOfMemory>
        ensures room { OnOk result (more ≤ self.new.spare) }
        ensures same { self.new.slots ≡ self.old.slots }
        ensures never_less { self.old.spare ≤ self.new.spare }
    {
        self.bags.reserve(more)
    }

    /// The first slot that isn't empty.
    pub fn first(&self) -> Option<usize>
        ensures some { IfSome result (λ slot. IsFirst self.now.slots slot) }
        ensures none { IfNone result (AllEmpty self.now.slots) }
        ensures long { length self.now.slots ≡ 512 }
    {
        first_marked(&self.marks)
    }

    /// Puts an event into a slot.
    pub fn put(&mut self, slot: usize, event: Event)
        requires slot { slot < 512 }
        requires room { 1 ≤ self.old.spare }
        ensures long { length self.old.slots ≡ 512 }
        ensures slots { self.new.slots ≡ slice_set self.old.slots slot (event ∷ slice_index_or self.old.slots slot []) }
        ensures spare { self.new.spare + 1 ≡ self.old.spare }
    {
        self.bags.push(slot, event);
        mark(&mut self.marks, slot);
    }

    /// The front event of a slot, if there is one.
    pub fn front(&self, slot: usize) -> Option<&Event>
        requires { slot < 512 }
        ensures some { IfSome result (λ event. HasFront self.now.slots slot event.now) }
        ensures none { IfNone result (slice_index_or self.now.slots slot [] ≡ []) }
    {
        self.bags.front(slot)
    }

    /// Moves the front event of a slot that isn't empty to another slot.
    pub fn move_front(&mut self, from: usize, to: usize)
        requires from { from < 512 }
        requires to { to < 512 }
        requires some { slice_index_or self.old.slots from [] ≢ [] }
        ensures long { length self.old.slots ≡ 512 }
        ensures moves { (event : Event) → HasFront self.old.slots from event → MovesFront self.old.slots self.new.slots from to event }
        ensures spare { self.new.spare ≡ self.old.spare }
    {
        self.bags.move_front(from, to);
        mark(&mut self.marks, to);
        if !self.bags.is_empty(from) {
            return;
        }
        unmark(&mut self.marks, from);
    }

    /// Appends the events of a slot, and leaves it without any. After a refusal all slots are as they were.
    pub fn take_all(&mut self, slot: usize, into: &mut Vec<Event>) -> Result<(), OutOfMemory>
        requires { slot < 512 }
        ensures taken { OnOk result (into.new.items ≡ into.old.items ++ slice_index_or self.old.slots slot []) }
        ensures slots { OnOk result (self.new.slots ≡ slice_set self.old.slots slot []) }
        ensures err { OnErr result (self.new ≡ self.old) }
    {
        self.bags.take_all(slot, into)?;
        unmark(&mut self.marks, slot);
        Ok(())
    }
}
