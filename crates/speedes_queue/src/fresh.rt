//! The events that have come since the last merge.
ghost use Rattle.std.specs.Prelude.{◌≡◌, ◌+◌, ◌<◌, ◌≤◌, ◌^◌, [], ◌∷◌, ◌++◌, length, OnOk, vec_len, vec_capacity};
ghost use Rattle.key_order.specs.Stamps.{least_stamp};
ghost use Rattle.key_order.specs.Keys.{KeysDiffer, first_key};
ghost use Rattle.key_order.specs.Pending.{in_order};

use crate::least::keep_lesser;
use delta_exchange::OutOfMemory;
use event_chain::{Cell, Chain};
use event_key::{Key, NO_STAMP};
use model_core::Event;
use std::alloc::Global;
use std::marker::Model;

/// Events in the order of arrival, with room for more.
#[derive(Drop)]
pub struct Fresh {
    // None until room is made for the first time, since a vector holds its allocator
    cells: Option<Vec<Cell<Event>>>,
    spare: usize,
    least: Option<Key>,
    least_stamp: u64,
}

impl Model for Fresh {
    ghost use Rattle.speedes_queue.specs.Fresh.{FreshView, events_of, AreFresh};

    ghost Value = { FreshView };

    ghost view = { λ fresh. record { events = events_of fresh.cells; spare = fresh.spare } };

    ghost invariant = { λ fresh. AreFresh fresh.cells fresh.spare fresh.least fresh.least_stamp };
}

/// Sorts cells by their keys.
fn sort_cells(cells: &mut Vec<Cell<Event>>)
    requires { KeysDiffer cells.old.items }
    ensures items { cells.new.items ≡ in_order cells.old.items }
    ensures len { vec_len cells.new ≡ vec_len cells.old }
    ensures capacity { vec_capacity cells.new ≡ vec_capacity cells.old }
{
    cells.sort_unstable_by_key(|cell| cell.get().key);
}

/// Links cells into a chain.
fn linked(cells: &mut Vec<Cell<Event>>) -> Chain<Event>
    requires { length cells.old.items < 2 ^ 60 }
    ensures chain { result ≡ cells.old.items }
    ensures items { cells.new.items ≡ [] }
    ensures len { vec_len cells.new ≡ 0 }
    ensures capacity { vec_capacity cells.new ≡ vec_capacity cells.old }
{
    let mut chain = Chain::new();
    while let Some(cell) = cells.pop() {
        chain.push_front(cell);
    }
    chain
}

impl Fresh {
    /// No events, and no room.
    pub fn new() -> Fresh
        ensures events { result.events ≡ [] }
        ensures spare { result.spare ≡ 0 }
    {
        Fresh {
            cells: None,
            spare: 0,
            least: None,
            least_stamp: NO_STAMP,
        }
    }

    /// How many events there are.
    pub fn len(&self) -> usize
        ensures { result ≡ length self.now.events }
    {
        match &self.cells {
            Some(cells) => cells.len(),
            None => 0,
        }
    }

    /// The least key.
    pub fn least(&self) -> Option<Key>
        ensures { result ≡ first_key (in_order self.now.events) }
    {
        self.least
    }

    /// The least stamp, or `NO_STAMP` where there is no event.
    pub fn least_stamp(&self) -> u64
        ensures { result ≡ least_stamp NO_STAMP self.now.events }
    {
        self.least_stamp
    }

    /// Makes room for n more events.
    pub fn reserve(&mut self, alloc: Global, n: usize) -> Result<(), OutOfMemory>
        ensures events { self.new.events ≡ self.old.events }
        ensures none_fell { self.old.spare ≤ self.new.spare }
        ensures ok { OnOk result (n ≤ self.new.spare) }
    {
        if self.spare >= n {
            return Ok(());
        }
        match &mut self.cells {
            Some(cells) => {
                cells.reserve(n)?;
                self.spare = cells.capacity() - cells.len();
            }
            None => {
                self.cells = Some(Vec::with_capacity(alloc, n)?);
                self.spare = n;
            }
        }
        Ok(())
    }

    /// Adds an event.
    pub fn push(&mut self, cell: Cell<Event>)
        requires { 1 ≤ self.old.spare }
        ensures events { self.new.events ≡ self.old.events ++ cell ∷ [] }
        ensures spare { self.new.spare + 1 ≡ self.old.spare }
    {
        let key = &cell.get().key;
        keep_lesser(&mut self.least, key);
        self.least_stamp = self.least_stamp.min(key.stamp);
        self.spare -= 1;
        let Some(cells) = &mut self.cells else {
            unreachable!()
        };
        cells.push_reserved(cell);
    }

    /// Takes all events, in the order of their keys. The room that they had is spare again.
    pub fn take_sorted(&mut self) -> Chain<Event>
        requires distinct { KeysDiffer self.old.events }
        requires few { length self.old.events < 2 ^ 60 }
        ensures chain { result ≡ in_order self.old.events }
        ensures events { self.new.events ≡ [] }
        ensures spare { self.new.spare ≡ self.old.spare + length self.old.events }
    {
        self.least = None;
        self.least_stamp = NO_STAMP;
        let Some(cells) = &mut self.cells else {
            return Chain::new();
        };
        self.spare += cells.len();
        sort_cells(cells);
        linked(cells)
    }
}
