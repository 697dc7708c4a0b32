//! What processed events leave to be used again.
ghost use Rattle.std.specs.Prelude.{◌≡◌, ◌+◌, ◌-◌, ◌≤◌, ◌^◌, min, length, OnOk, OnErr, IfOk};

use crate::done::{Done, Verdict};
use crate::lists::UndoLists;
use event_chain::{Cell, CellPool, Chain};
use model_core::{Change, Event, OutOfMemory};
use std::alloc::Global;
use std::marker::Model;

/// Empty cells of events, spent entries of logs, and the lists of changes that those had. One pool serves all logs of a
/// thread: what one of them leaves another takes. Contracts see how many cells and how many
/// entries there are, and how many lists are handed out.
#[derive(Drop)]
pub struct LogPool {
    events: CellPool<Event>,
    entries: CellPool<Done>,
    lists: UndoLists,
}

impl Model for LogPool {
    ghost use Rattle.object_log.specs.Pools.{PoolView};

    ghost Value = { PoolView };

    ghost view = { λ pool. record { events = pool.events; entries = pool.entries; lent = pool.lists.lent } };
}

/// What a committed event releases.
#[derive(Drop)]
pub struct Released {
    pub event: Event,
    pub sends: Chain<Event>,
    pub verdict: Verdict,
}

impl LogPool {
    /// A pool of nothing.
    pub fn new() -> LogPool
        ensures { result ≡ record { events = 0; entries = 0; lent = 0 } }
    {
        LogPool {
            events: CellPool::new(),
            entries: CellPool::new(),
            lists: UndoLists::new(),
        }
    }

    /// How many cells of events there are.
    pub fn events(&self) -> usize
        ensures value { result ≡ self.now.events }
        ensures most { result ≤ 2 ^ 60 }
    {
        self.events.spare()
    }

    /// How many spent entries there are.
    pub fn entries(&self) -> usize
        ensures value { result ≡ self.now.entries }
        ensures most { result ≤ 2 ^ 60 }
    {
        self.entries.spare()
    }

    /// Keeps the cell of an event that is gone.
    pub fn recycle(&mut self, event: Cell<Event>) -> Event
        ensures event { result ≡ event }
        ensures events { self.new.events ≡ min (self.old.events + 1) (2 ^ 60) }
        ensures entries { self.new.entries ≡ self.old.entries }
        ensures lent { self.new.lent ≡ self.old.lent }
    {
        self.events.recycle(event)
    }

    /// Takes a committed event apart. Its entry and its cell are kept.
    pub fn release(&mut self, done: Cell<Done>) -> Released
        ensures event { result.event ≡ done.event }
        ensures sends { result.sends ≡ done.sends }
        ensures verdict { result.verdict ≡ done.verdict }
        ensures events { self.new.events ≡ min (self.old.events + 1) (2 ^ 60) }
        ensures entries { self.new.entries ≡ min (self.old.entries + 1) (2 ^ 60) }
        ensures lent { self.new.lent ≡ self.old.lent - 1 }
    {
        let Done {
            event,
            undo,
            sends,
            verdict,
        } = self.take_out(done);
        self.lists.give_back(undo);
        Released {
            event: self.events.recycle(event),
            sends,
            verdict,
        }
    }

    /// Makes sure of an entry, and of cells for all that one event sends.
    pub(crate) fn reserve(&mut self, alloc: Global) -> Result<(), OutOfMemory>
        ensures events { OnOk result (8 ≤ self.new.events) }
        ensures entries { OnOk result (1 ≤ self.new.entries) }
        ensures events_kept { self.old.events ≤ self.new.events }
        ensures entries_kept { self.old.entries ≤ self.new.entries }
        ensures lent { self.new.lent ≡ self.old.lent }
    {
        self.entries.reserve(alloc, 1)?;
        self.events.reserve(alloc, 8)
    }

    /// A list of these changes.
    pub(crate) fn copy_of(
        &mut self,
        alloc: Global,
        changes: &[Change],
    ) -> Result<Vec<Change>, OutOfMemory>
        ensures list { IfOk result (λ list. list.items ≡ changes.now) }
        ensures same { self.new ≡ record self.old { lent = self.new.lent } }
        ensures lent { OnOk result (self.new.lent ≡ self.old.lent + 1) }
        ensures refused { OnErr result (self.new.lent ≡ self.old.lent) }
    {
        self.lists.copy_of(alloc, changes)
    }

    /// Puts an event into a cell.
    pub(crate) fn fill(&mut self, event: Event) -> Cell<Event>
        requires { 1 ≤ self.old.events }
        ensures value { result ≡ event }
        ensures events { self.new.events + 1 ≡ self.old.events }
        ensures entries { self.new.entries ≡ self.old.entries }
        ensures lent { self.new.lent ≡ self.old.lent }
    {
        self.events.fill(event)
    }

    /// Puts what is kept of an event into an entry.
    pub(crate) fn enter(&mut self, done: Done) -> Cell<Done>
        requires { 1 ≤ self.old.entries }
        ensures value { result ≡ done }
        ensures events { self.new.events ≡ self.old.events }
        ensures entries { self.new.entries + 1 ≡ self.old.entries }
        ensures lent { self.new.lent ≡ self.old.lent }
    {
        self.entries.fill(done)
    }

    /// Takes what is kept of an event out of its entry.
    pub(crate) fn take_out(&mut self, entry: Cell<Done>) -> Done
        ensures value { result ≡ entry }
        ensures events { self.new.events ≡ self.old.events }
        ensures entries { self.new.entries ≡ min (self.old.entries + 1) (2 ^ 60) }
        ensures lent { self.new.lent ≡ self.old.lent }
    {
        self.entries.recycle(entry)
    }

    /// Keeps what an undone event leaves: the list of its changes, and the cells of its messages.
    pub(crate) fn keep(&mut self, undo: Vec<Change>, sends: Chain<Event>)
        ensures events { self.new.events ≡ min (self.old.events + length sends) (2 ^ 60) }
        ensures entries { self.new.entries ≡ self.old.entries }
        ensures lent { self.new.lent ≡ self.old.lent - 1 }
    {
        self.lists.give_back(undo);
        recycle_all(&mut self.events, sends);
    }
}

/// Puts the cells of messages into the pool.
pub fn recycle_all(pool: &mut CellPool<Event>, messages: Chain<Event>)
    ensures { pool.new ≡ min (pool.old + length messages) (2 ^ 60) }
{
    prove!(pool.spare() <= 1 << 60);
    let mut messages = messages;
    while let Some(message) = messages.pop_front() {
        pool.recycle(message);
    }
}
