//! Processed events in a pile.
ghost use Rattle.std.specs.Prelude.{◌≡◌, ◌+◌, ◌<◌, ◌≤◌, [], ◌∷◌, ◌++◌, length, reverse, map, slice_get, Some, OnOk};
ghost use Rattle.event_key.specs.declared.stamp.TheConstants.{NO_STAMP};
ghost use Rattle.key_order.specs.Stamps.{least_stamp};
ghost use Rattle.object_log.specs.Logs.{held_of};
ghost use Rattle.object_log.specs.Rows.{dones_of, TellHeld};
ghost use Rattle.object_log.specs.Sends.{least_of};

use crate::done::Done;
use crate::entry::Entry;
use event_chain::Cell;
use event_key::NO_STAMP;
use model_core::OutOfMemory;
use std::alloc::Global;
use std::marker::Model;

/// Processed events, one on top of another. Contracts see them from the bottom to the top, and for how many more there
/// is room.
#[derive(Drop)]
pub struct Pile {
    // None until the first one comes, since a vector holds its allocator
    entries: Option<Vec<Entry>>,
}

impl Model for Pile {
    ghost use Rattle.object_log.specs.Rows.{PileView, dones_of, room_of, HaveTold};

    ghost Value = { PileView };

    ghost view = { λ pile. record { done = dones_of pile.entries; room = room_of pile.entries } };

    ghost invariant = { λ pile. HaveTold pile.entries };
}

impl Pile {
    /// No event, and no room.
    pub fn new() -> Pile
        ensures { result.done ≡ [] }
    {
        Pile { entries: None }
    }

    /// How many there are.
    pub fn len(&self) -> usize
        ensures { result ≡ length self.now.done }
    {
        match &self.entries {
            Some(entries) => entries.len(),
            None => 0,
        }
    }

    /// The one at a place, the lowest at place 0.
    pub fn at(&self, place: usize) -> &Done
        requires { place < length self.now.done }
        ensures { slice_get self.now.done place ≡ Some result.now }
    {
        let Some(entries) = &self.entries else {
            unreachable!()
        };
        entries[place].done.get()
    }

    /// The least stamp that the one at a place sends, or `NO_STAMP`.
    pub fn least_at(&self, place: usize) -> u64
        requires { place < length self.now.done }
        ensures { slice_get (map least_of self.now.done) place ≡ Some result }
    {
        let Some(entries) = &self.entries else {
            unreachable!()
        };
        entries[place].least
    }

    /// The least stamp that they send, or `NO_STAMP`.
    pub fn held_least(&self) -> u64
        ensures { result ≡ least_stamp NO_STAMP (held_of self.now.done) }
    {
        match &self.entries {
            Some(entries) => last_held(entries),
            None => NO_STAMP,
        }
    }

    /// Makes room for one more.
    pub fn reserve(&mut self, alloc: Global) -> Result<(), OutOfMemory>
        ensures ok { OnOk result (1 ≤ self.new.room) }
        ensures same { self.new.done ≡ self.old.done }
    {
        match &mut self.entries {
            Some(entries) => entries.reserve(1)?,
            None => self.entries = Some(Vec::with_capacity(alloc, 1)?),
        }
        Ok(())
    }

    /// Puts one on top, with the least stamp that it sends.
    pub fn push(&mut self, done: Cell<Done>, least: u64)
        requires room { 1 ≤ self.old.room }
        requires least { least ≡ least_stamp NO_STAMP done.sends }
        ensures { self.new.done ≡ self.old.done ++ done ∷ [] }
    {
        let held = self.held_least().min(least);
        let Some(entries) = &mut self.entries else {
            unreachable!()
        };
        entries.push_reserved(Entry { done, least, held });
    }

    /// Takes the top one.
    pub fn pop(&mut self) -> Cell<Done>
        requires { 0 < length self.old.done }
        ensures { self.old.done ≡ self.new.done ++ result ∷ [] }
    {
        let Some(entries) = &mut self.entries else {
            unreachable!()
        };
        let Entry { done, .. } = entries.pop().unwrap();
        done
    }

    /// Turns the pile upside down, in time linear in how many there are.
    pub fn turn(&mut self)
        ensures { self.new.done ≡ reverse self.old.done }
    {
        let Some(entries) = &mut self.entries else {
            return;
        };
        entries.reverse();
        tell_held(entries);
    }
}

/// The least stamp that a pile sends, or `NO_STAMP`.
fn last_held(entries: &[Entry]) -> u64
    requires { TellHeld NO_STAMP entries.now }
    ensures { result ≡ least_stamp NO_STAMP (held_of (map (λ e. e.done) entries.now)) }
{
    match entries.last() {
        Some(top) => top.held,
        None => NO_STAMP,
    }
}

/// Tells each one the least stamp that it and those below it send.
fn tell_held(entries: &mut Vec<Entry>)
    ensures told { TellHeld NO_STAMP entries.new.items }
    ensures same { map (λ e. e.done) entries.new.items ≡ map (λ e. e.done) entries.old.items }
{
    let mut held = NO_STAMP;
    for place in 0..entries.len() {
        let entry = &mut entries[place];
        held = held.min(entry.least);
        entry.held = held;
    }
}
