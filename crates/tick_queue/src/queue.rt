//! The queue by ticks.
ghost use Rattle.std.specs.Prelude.{◌≡◌, ◌+◌, ◌<◌, ◌≤◌, ◌^◌, [], ◌∷◌, ◌++◌, length, drop, min, IfOk, OnOk, OnErr, OnSome, IfSome, IfNone};
ghost use Rattle.std.specs.Bool.{OnFalse};
ghost use Rattle.event_key.specs.declared.stamp.TheConstants.{NO_STAMP};
ghost use Rattle.key_order.specs.Keys.{IsNewKey};
ghost use Rattle.key_order.specs.Pending.{enqueue};
ghost use Rattle.tick_queue.specs.Levels.{HasLeft};
ghost use Rattle.tick_queue.specs.Near.{StartsWith, LosesFirst};
ghost use Rattle.tick_queue.specs.Queues.{IsSettled};

use crate::levels::Levels;
use crate::near::{Near, goes_later};
use delta_exchange::OutOfMemory;
use event_key::NO_STAMP;
use model_core::Event;
use std::alloc::Global;
use std::marker::Model;

/// The pending events. Contracts see a list and two numbers: `pending`, in the order of the keys, `at_hand`, how many
/// of the first ones are at hand, and `fresh_least`, the least stamp of what came since the last merge. All keys differ.
#[derive(Drop)]
pub struct TickQueue {
    near: Near,
    levels: Levels,
    fresh_least: u64,
}

impl Model for TickQueue {
    ghost use Rattle.std.specs.Prelude.{◌++◌, length};
    ghost use Rattle.key_order.specs.Pending.{in_order};
    ghost use Rattle.tick_queue.specs.Queues.{QueueView, AreInOrder};

    ghost Value = { QueueView };

    ghost view = { λ q. record { pending = q.near ++ in_order q.levels.events; at_hand = length q.near; fresh_least = q.fresh_least } };

    ghost invariant = { λ q. AreInOrder q.near q.levels.tick q.levels.events };
}

impl TickQueue {
    /// No events.
    pub fn new(alloc: Global) -> Result<TickQueue, OutOfMemory>
        ensures pending { IfOk result (λ queue. queue.pending ≡ []) }
        ensures fresh_least { IfOk result (λ queue. queue.fresh_least ≡ NO_STAMP) }
    {
        Ok(TickQueue {
            near: Near::new(alloc),
            levels: Levels::new(alloc)?,
            fresh_least: NO_STAMP,
        })
    }

    /// Makes room for n more events at once.
    pub fn reserve(&mut self, n: usize) -> Result<(), OutOfMemory>
        ensures { self.new ≡ self.old }
    {
        self.levels.reserve(n)
    }

    /// Adds an event. After a refusal the queue is as it was.
    #[inline(always)]
    pub fn push(&mut self, event: Event) -> Result<(), OutOfMemory>
        requires new_key { IsNewKey event.key self.old.pending }
        requires room { length self.old.pending + 1 < 2 ^ 60 }
        ensures pending { OnOk result (self.new.pending ≡ enqueue event self.old.pending) }
        ensures fresh_least { OnOk result (self.new.fresh_least ≡ min self.old.fresh_least event.key.stamp) }
        ensures err { OnErr result (self.new ≡ self.old) }
    {
        if !goes_later(&self.near, self.levels.tick(), &event) {
            self.near.insert(event)?;
            self.fresh_least = self.fresh_least.min(event.key.stamp);
            return Ok(());
        }
        self.levels.reserve(1)?;
        self.levels.place(event);
        self.fresh_least = self.fresh_least.min(event.key.stamp);
        Ok(())
    }

    /// The least stamp of what came since the last merge, or `NO_STAMP` if nothing came.
    pub fn fresh_least(&self) -> u64
        ensures { result ≡ self.now.fresh_least }
    {
        self.fresh_least
    }

    /// Takes what came for fresh no more.
    pub fn merge(&mut self)
        ensures { self.new ≡ record self.old { fresh_least = NO_STAMP } }
    {
        self.fresh_least = NO_STAMP;
    }

    /// Pauses each time that so many events at hand have gone, and not only when none is left.
    pub fn pause_after(&mut self, events: usize)
        ensures { self.new ≡ self.old }
    {
        self.near.pause_after(events);
    }

    /// Whether it pauses until it is settled anew.
    #[inline(always)]
    pub fn pauses(&self) -> bool
        ensures { OnFalse result (0 < self.now.at_hand) }
    {
        self.near.pauses()
    }

    /// Brings the first events to hand, if none are there, and goes on from a pause. After a refusal events may be lost.
    pub fn settle(&mut self) -> Result<(), OutOfMemory>
        ensures pending { OnOk result (self.new.pending ≡ self.old.pending) }
        ensures fresh_least { self.new.fresh_least ≡ self.old.fresh_least }
        ensures settled { OnOk result (IsSettled self.new) }
        ensures left { HasLeft self.old.pending self.new.pending }
    {
        if self.near.is_empty() {
            return self.near.refill(&mut self.levels);
        }
        self.near.go_on();
        Ok(())
    }

    /// The first event, if one is at hand.
    pub fn first(&self) -> Option<&Event>
        ensures some { IfSome result (λ event. StartsWith self.now.pending event.now) }
        ensures at_hand { OnSome result (0 < self.now.at_hand) }
        ensures none { IfNone result (self.now.at_hand ≡ 0) }
    {
        self.near.first()
    }

    /// The event that comes so many after the first one, if it is at hand.
    pub fn after_first(&self, k: usize) -> Option<&Event>
        ensures some { IfSome result (λ event. StartsWith (drop k self.now.pending) event.now) }
        ensures at_hand { OnSome result (k < self.now.at_hand) }
        ensures none { IfNone result (self.now.at_hand ≤ k) }
    {
        self.near.after_first(k)
    }

    /// Lets the first event go.
    pub fn drop_first(&mut self)
        requires { 0 < self.old.at_hand }
        ensures pending { LosesFirst self.old.pending self.new.pending }
        ensures fresh_least { self.new.fresh_least ≡ self.old.fresh_least }
    {
        self.near.drop_first();
    }
}
