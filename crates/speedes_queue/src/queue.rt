//! The queue of two lists.
ghost use Rattle.std.specs.Prelude.{◌≡◌, ◌+◌, ◌<◌, ◌≤◌, ◌^◌, ◌↔◌, [], ◌∷◌, ◌++◌, length, IsTrue, IsNone, IfSome, IfNone, OnOk, All};
ghost use Rattle.key_order.specs.Ascending.{IsAscending};
ghost use Rattle.key_order.specs.Pending.{enqueue_all};
ghost use Rattle.key_order.specs.Stamps.{least_stamp};
ghost use Rattle.key_order.specs.Keys.{IsNewKey, IsAhead, first_key};
ghost use Rattle.speedes_queue.specs.Queues.{pending_of, IsEmpty, IsOrderly, TakesPrimary, HasMerged};

use crate::fresh::Fresh;
use crate::least::lesser;
use crate::runs::Runs;
use delta_exchange::OutOfMemory;
use event_chain::{Cell, Chain};
use event_key::{Key, NO_STAMP};
use model_core::Event;
use std::alloc::Global;
use std::marker::Model;

/// The pending events. Contracts see two lists and a number: `primary`, in the order of the keys, `fresh`,
/// in the order of arrival, and `spare`, how many more events may be pushed. All keys differ.
#[derive(Drop)]
pub struct Queue {
    primary: Runs,
    fresh: Fresh,
}

impl Model for Queue {
    ghost use Rattle.speedes_queue.specs.Queues.{QueueView, view_of, IsOrderly};

    ghost Value = { QueueView };

    ghost view = { λ queue. view_of queue.primary queue.fresh };

    ghost invariant = { λ queue. IsOrderly (view_of queue.primary queue.fresh) };
}

impl Queue {
    /// No events, and no room for any.
    pub fn new() -> Queue
        ensures primary { result.primary ≡ [] }
        ensures fresh { result.fresh ≡ [] }
        ensures spare { result.spare ≡ 0 }
    {
        Queue {
            primary: Runs::new(),
            fresh: Fresh::new(),
        }
    }

    /// Makes room for n more events to be pushed.
    pub fn reserve(&mut self, alloc: Global, n: usize) -> Result<(), OutOfMemory>
        ensures ok { OnOk result (n ≤ self.new.spare) }
        ensures none_fell { self.old.spare ≤ self.new.spare }
        ensures primary { self.new.primary ≡ self.old.primary }
        ensures fresh { self.new.fresh ≡ self.old.fresh }
    {
        self.fresh.reserve(alloc, n)
    }

    /// Adds an event to the fresh ones.
    pub fn push(&mut self, cell: Cell<Event>)
        requires spare { 1 ≤ self.old.spare }
        requires new_key { IsNewKey cell.key (self.old.primary ++ self.old.fresh) }
        requires room { length self.old.primary + length self.old.fresh + 1 < 2 ^ 60 }
        ensures primary { self.new.primary ≡ self.old.primary }
        ensures fresh { self.new.fresh ≡ self.old.fresh ++ cell ∷ [] }
        ensures spare { self.new.spare + 1 ≡ self.old.spare }
        ensures orderly { IsOrderly self.new }
    {
        self.fresh.push(cell);
    }

    /// Puts events back into their places in the primary list.
    pub fn give_back(&mut self, events: Chain<Event>)
        requires ascending { IsAscending events }
        requires new_keys { All (λ e. IsNewKey e.key (self.old.primary ++ self.old.fresh)) events }
        requires room { length events + length self.old.primary + length self.old.fresh < 2 ^ 60 }
        ensures primary { self.new.primary ≡ enqueue_all events self.old.primary }
        ensures fresh { self.new.fresh ≡ self.old.fresh }
        ensures spare { self.new.spare ≡ self.old.spare }
        ensures orderly { IsOrderly self.new }
    {
        self.primary.add(events);
    }

    /// The least key of all events.
    pub fn least(&self) -> Option<Key>
        ensures least { result ≡ first_key (pending_of self.now) }
        ensures none { IsNone result ↔ IsEmpty self.now }
        ensures orderly { IsOrderly self.now }
    {
        lesser(self.primary.first(), self.fresh.least())
    }

    /// The key of the first event of the primary list.
    pub fn first(&self) -> Option<Key>
        ensures { result ≡ first_key self.now.primary }
    {
        self.primary.first()
    }

    /// The least stamp of the fresh events, or `NO_STAMP` where there is none.
    pub fn fresh_least(&self) -> u64
        ensures { result ≡ least_stamp NO_STAMP self.now.fresh }
    {
        self.fresh.least_stamp()
    }

    /// Sorts the fresh events and puts them into their places in the primary list.
    pub fn merge(&mut self)
        ensures primary { self.new.primary ≡ pending_of self.old }
        ensures fresh { self.new.fresh ≡ [] }
        ensures spare { self.new.spare ≡ self.old.spare + length self.old.fresh }
        ensures orderly { IsOrderly self.new }
    {
        let run = self.fresh.take_sorted();
        self.primary.add(run);
    }

    /// Whether the primary list begins with an event that comes before all fresh ones.
    fn is_ahead(&self) -> bool
        ensures { IsTrue result ↔ IsAhead self.now.primary self.now.fresh }
    {
        match (self.primary.first(), self.fresh.least()) {
            (Some(first), Some(least)) => first.is_before(&least),
            (Some(_), None) => true,
            (None, _) => false,
        }
    }

    /// Takes the event of least key. Merges first, unless the primary list begins with it.
    pub fn pop(&mut self) -> Option<Cell<Event>>
        ensures least { IfSome result (λ cell. pending_of self.old ≡ cell ∷ pending_of self.new) }
        ensures none { IsNone result ↔ IsEmpty self.old }
        ensures unchanged { IfNone result (self.new ≡ self.old) }

        // Where the primary list is ahead it alone loses an event. Else the fresh events were merged.
        ensures ahead { IsAhead self.old.primary self.old.fresh → IfSome result (TakesPrimary self.old self.new) }
        ensures merged { ¬ IsAhead self.old.primary self.old.fresh → HasMerged self.old self.new }

        // What was popped may come again.
        ensures gone { IfSome result (λ cell. IsNewKey cell.key (self.new.primary ++ self.new.fresh)) }
        ensures orderly { IsOrderly self.new }
    {
        if !self.is_ahead() {
            self.merge();
        }
        self.primary.pop()
    }

    /// How many events there are.
    pub fn len(&self) -> usize
        ensures len { result ≡ length self.now.primary + length self.now.fresh }
        ensures orderly { IsOrderly self.now }
    {
        self.primary.len() + self.fresh.len()
    }
}
