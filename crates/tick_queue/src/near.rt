//! Events at hand, in order.
ghost use Rattle.std.specs.Prelude.{◌≡◌, ◌+◌, ◌<◌, ◌≤◌, ◌^◌, ◌↔◌, true, [], ◌∷◌, ◌++◌, length, drop, OnOk, OnErr, IfSome, IfNone, IsTrue};
ghost use Rattle.std.specs.Bool.{OnTrue, OnFalse};
ghost use Rattle.std.specs.List.{AllByRecursion};
ghost use Rattle.event_key.specs.Stamps.{time_part};
ghost use Rattle.key_order.specs.Ascending.{IsAscending};
ghost use Rattle.key_order.specs.Keys.{IsNewKey, KeysDiffer};
ghost use Rattle.key_order.specs.Pending.{enqueue};
ghost use Rattle.tick_queue.specs.Levels.{HasLeft};
ghost use Rattle.tick_queue.specs.Near.{StartsWith, LosesFirst, AllBefore, HasLater, GoesLater, GoesNear, Refills};

use crate::levels::Levels;
use crate::order::{event_of, sort};
use delta_exchange::OutOfMemory;
use event_key::{Key, time_of};
use model_core::Event;
use std::alloc::Global;
use std::marker::Model;

/// Events, of which the first ones are done. Contracts see the others, in order.
#[derive(Drop)]
pub struct Near {
    // in no order
    events: Vec<Event>,
    // where each of them lies, in order
    places: Vec<u64>,
    // how many are done
    at: usize,
    // how many of them come before the next pause
    stop: usize,
    // how many events are done from one pause to the next
    step: usize,
}

impl Model for Near {
    ghost use Rattle.std.specs.Prelude.{List, drop};
    ghost use Rattle.model_core.specs.declared.event.Event.{Event};
    ghost use Rattle.tick_queue.specs.Near.{ArePlaced};
    ghost use Rattle.tick_queue.specs.Order.{shown};

    ghost Value = { List Event };

    ghost view = { λ near. drop near.at (shown near.events.items near.places.items) };

    ghost invariant = { λ near. ArePlaced near.at near.stop near.events.items near.places.items };
}

impl Near {
    /// No events.
    pub fn new(alloc: Global) -> Near
        ensures { result ≡ [] }
    {
        Near {
            events: Vec::new(alloc),
            places: Vec::new(alloc),
            at: 0,
            stop: 0,
            step: usize::MAX,
        }
    }

    /// Pauses each time that so many events are done, and not only when none is left.
    pub fn pause_after(&mut self, events: usize)
        ensures { self.new ≡ self.old }
    {
        self.step = events;
    }

    /// Whether all events up to the next pause are done.
    #[inline(always)]
    pub fn pauses(&self) -> bool
        ensures { OnFalse result (0 < length self.now) }
    {
        self.at >= self.stop
    }

    /// Goes on from a pause to the next one.
    pub fn go_on(&mut self)
        ensures { self.new ≡ self.old }
    {
        self.stop = self.places.len().min(self.at.saturating_add(self.step));
    }

    /// Whether no event is left.
    pub fn is_empty(&self) -> bool
        ensures { IsTrue result ↔ (self.now ≡ []) }
    {
        self.at == self.places.len()
    }

    /// The first event.
    pub fn first(&self) -> Option<&Event>
        ensures some { IfSome result (λ event. StartsWith self.now event.now) }
        ensures none { IfNone result (self.now ≡ []) }
    {
        if self.at == self.places.len() {
            return None;
        }
        Some(event_of(&self.events, &self.places, self.at))
    }

    /// The event that comes so many after the first one, if so many are left.
    pub fn after_first(&self, k: usize) -> Option<&Event>
        ensures some { IfSome result (λ event. StartsWith (drop k self.now) event.now) }
        ensures none { IfNone result (length self.now ≤ k) }
    {
        if k >= self.places.len() - self.at {
            return None;
        }
        Some(event_of(&self.events, &self.places, self.at + k))
    }

    /// Lets the first event go.
    pub fn drop_first(&mut self)
        requires { 0 < length self.old }
        ensures { LosesFirst self.old self.new }
    {
        self.at += 1;
    }

    /// Whether all events come before a key.
    pub fn is_before(&self, key: &Key) -> bool
        requires { IsAscending self.now }
        ensures yes { OnTrue result (AllBefore key.now self.now) }
        ensures no { OnFalse result (HasLater key.now self.now) }
    {
        if self.at == self.places.len() {
            return true;
        }
        let last = event_of(&self.events, &self.places, self.places.len() - 1);
        last.key.is_before(key)
    }

    /// Puts an event at its place among the others.
    pub fn insert(&mut self, event: Event) -> Result<(), OutOfMemory>
        requires up { IsAscending self.old }
        requires new_key { IsNewKey event.key self.old }
        ensures ok { OnOk result (self.new ≡ enqueue event self.old) }
        ensures err { OnErr result (self.new ≡ self.old) }
    {
        let mut i = self.places.len();
        while self.at < i
            && event
                .key
                .is_before(&event_of(&self.events, &self.places, i - 1).key)
        {
            i -= 1;
        }
        self.events.reserve(1)?;
        self.places.insert(i, self.events.len() as u64)?;
        self.events.push_reserved(event);
        Ok(())
    }

    /// Takes the events of the next tick that has some, in place of those that are left. After a refusal there are none.
    pub fn refill(&mut self, levels: &mut Levels) -> Result<(), OutOfMemory>
        requires { KeysDiffer levels.old.events }
        ensures ok { OnOk result (Refills levels.old levels.new self.new) }
        ensures err { OnErr result (self.new ≡ []) }
        ensures left { HasLeft levels.old.events levels.new.events }
    {
        self.at = 0;
        self.stop = 0;
        self.places.clear();
        self.events.clear();
        levels.advance(&mut self.events)?;
        match sort(&mut self.events, &mut self.places) {
            Ok(()) => {
                self.stop = self.places.len().min(self.step);
                Ok(())
            }
            Err(refused) => {
                self.places.clear();
                Err(refused)
            }
        }
    }
}

/// Whether an event goes to the later ones: it is of this tick or a later one, and comes after those at hand.
pub fn goes_later(near: &Near, now: u64, event: &Event) -> bool
    requires up { IsAscending near.now }
    requires reached { AllByRecursion (λ e. time_part e.key.stamp ≤ now) near.now }
    ensures yes { OnTrue result (GoesLater near.now now event.now) }
    ensures no { OnFalse result (GoesNear near.now now event.now) }
{
    let tick = time_of(event.key.stamp);
    if tick == now {
        return near.is_before(&event.key);
    }
    now < tick
}
