//! Events by their ticks: eight levels of 64 slots, by the highest digit in which a tick differs from the tick at hand.
ghost use Rattle.std.specs.Prelude.{◌≡◌, ◌+◌, ◌<◌, ◌≤◌, ◌^◌, [], ◌∷◌, ◌++◌, length, IsPermutation, IfOk, OnOk};
ghost use Rattle.std.specs.List.{AllByRecursion};
ghost use Rattle.event_key.specs.Stamps.{time_part};
ghost use Rattle.tick_queue.specs.Levels.{Advances, HasLeft};

use crate::digits::first_tick;
use crate::slots::Slots;
use crate::spread::{place, spread};
use delta_exchange::OutOfMemory;
use model_core::Event;
use std::alloc::Global;
use std::marker::Model;

/// A tick, and events of this tick and later ones. Contracts see the events in no order, and for how many more there is
/// room.
#[derive(Drop)]
pub struct Levels {
    tick: u64,
    slots: Slots,
}

impl Model for Levels {
    ghost use Rattle.key_order.specs.Joined.{joined};
    ghost use Rattle.tick_queue.specs.Levels.{LevelsView, AreLevels};

    ghost Value = { LevelsView };

    ghost view = { λ levels. record { tick = levels.tick; events = joined levels.slots.slots; spare = levels.slots.spare } };

    ghost invariant = { λ levels. AreLevels levels.tick levels.slots.slots };
}

impl Levels {
    /// No events, at tick 0.
    pub fn new(alloc: Global) -> Result<Levels, OutOfMemory>
        ensures tick { IfOk result (λ levels. levels.tick ≡ 0) }
        ensures none { IfOk result (λ levels. levels.events ≡ []) }
    {
        Ok(Levels {
            tick: 0,
            slots: Slots::new(alloc)?,
        })
    }

    /// The tick at hand.
    pub fn tick(&self) -> u64
        ensures tick { result ≡ self.now.tick }
        ensures from { AllByRecursion (λ e. self.now.tick ≤ time_part e.key.stamp) self.now.events }
    {
        self.tick
    }

    /// Makes room for so many more events.
    #[inline(always)]
    pub fn reserve(&mut self, more: usize) -> Result<(), OutOfMemory>
        ensures room { OnOk result (more ≤ self.new.spare) }
        ensures tick { self.new.tick ≡ self.old.tick }
        ensures events { self.new.events ≡ self.old.events }
        ensures never_less { self.old.spare ≤ self.new.spare }
    {
        self.slots.reserve(more)
    }

    /// Adds an event of this tick or a later one.
    pub fn place(&mut self, event: Event)
        requires from { self.old.tick ≤ time_part event.key.stamp }
        requires room { 1 ≤ self.old.spare }
        ensures tick { self.new.tick ≡ self.old.tick }
        ensures events { IsPermutation (event ∷ self.old.events) self.new.events }
        ensures spare { self.new.spare + 1 ≡ self.old.spare }
    {
        place(&mut self.slots, self.tick, event);
    }

    /// Goes on to the first tick that has events, and takes these. After a refusal some may be lost.
    pub fn advance(&mut self, due: &mut Vec<Event>) -> Result<(), OutOfMemory>
        requires none { due.old.items ≡ [] }
        ensures advances { OnOk result (Advances self.old self.new due.new.items) }
        ensures left { HasLeft self.old.events self.new.events }
    {
        loop {
            let Some(slot) = self.slots.first() else {
                return Ok(());
            };
            self.tick = first_tick(self.tick, slot);
            // a slot of the lowest level has one tick
            if slot < 64 {
                return self.slots.take_all(slot, due);
            }
            spread(&mut self.slots, self.tick, slot);
        }
    }
}
