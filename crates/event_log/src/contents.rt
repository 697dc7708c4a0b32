//! What lies in the slot of a carried event.
ghost use Rattle.std.specs.Prelude.{◌≡◌, ◌+◌, ◌≤◌, length};
ghost use Rattle.object_log.specs.Flat.{none_in};
ghost use Rattle.object_log.specs.Objects.{HasUndone, IsNewest};
ghost use Rattle.event_log.specs.Keeping.{IsKept, done_in};

use crate::popped::Taken;
use crate::undo_list::UndoList;
use event_chain::{Cell, CellPool, Chain};
use event_key::{Key, NO_STAMP};
use model_core::{Change, Event};
use object_log::{Object, Released, Verdict, recycle_all};
use std::mem;

/// A processed event with all that takes it back. It is written and read where it lies, since it is large.
#[derive(Drop)]
pub struct Contents {
    pub event: Event,
    pub undo: UndoList,
    pub sends: Chain<Event>,
    /// The least stamp that it sends, or `NO_STAMP`.
    pub least: u64,
    pub verdict: Verdict,
    /// For an event that sends nothing, a cell to be undone into.
    pub cell: Option<Cell<Event>>,
}

impl Contents {
    /// What lies in a slot until there is an event.
    pub fn new() -> Contents {
        let key = Key {
            stamp: NO_STAMP,
            rank: 0,
            dest: 0,
            src: 0,
            serial: 0,
        };
        Contents {
            event: Event {
                key,
                kind: 0,
                a: 0,
                b: 0,
            },
            undo: UndoList::new(),
            sends: Chain::new(),
            least: NO_STAMP,
            verdict: Verdict::Failed(0),
            cell: None,
        }
    }

    /// Puts an event in with what it left. The cell of one that sends nothing comes from the pool.
    #[inline(always)]
    pub fn fill(
        &mut self,
        event: Event,
        changes: &[Change],
        taken: Taken,
        verdict: Verdict,
        cells: &mut CellPool<Event>,
    )
        requires changes { length changes.now ≤ 16 }
        requires cells { none_in taken.sends ≤ cells.old }
        ensures kept { IsKept self.new }
        ensures done { done_in self.new ≡ record { event = event; undo = changes.now; sends = taken.sends; verdict = verdict } }
        ensures cells { cells.new + none_in taken.sends ≡ cells.old }
    {
        self.cell = match taken.sends.len() {
            0 => Some(cells.fill(event)),
            _ => None,
        };
        self.event = event;
        self.undo.fill(changes);
        self.least = taken.least;
        self.sends = taken.sends;
        self.verdict = verdict;
    }

    /// Takes the event back at its object, which fired it last of those that it has not taken back. The cells of its messages go
    /// to the pool.
    #[inline(always)]
    pub fn undo(&mut self, object: &mut Object, cells: &mut CellPool<Event>) -> Cell<Event>
        requires kept { IsKept self.old }
        requires newest { IsNewest object.old (done_in self.old) }
        ensures undone { HasUndone object.old object.new (done_in self.old) }
        ensures event { result ≡ self.old.event }
    {
        let sends = mem::replace(&mut self.sends, Chain::new());
        self.undo.take_back(object, sends.len());
        recycle_all(cells, sends);
        match self.cell.take() {
            Some(cell) => cell,
            None => cells.fill(self.event),
        }
    }

    /// Takes the messages out of a committed event. Its cell is kept.
    #[inline(always)]
    pub fn release(&mut self, cells: &mut CellPool<Event>) -> Released
        ensures event { result.event ≡ self.old.event }
        ensures sends { result.sends ≡ self.old.sends }
        ensures verdict { result.verdict ≡ self.old.verdict }
    {
        if let Some(cell) = self.cell.take() {
            cells.recycle(cell);
        }
        Released {
            event: self.event,
            sends: mem::replace(&mut self.sends, Chain::new()),
            verdict: self.verdict,
        }
    }
}
