//! One object, which fires events and takes them back.
ghost use Rattle.std.specs.Prelude.{◌≡◌, ◌<◌, ◌≤◌, ◌+◌, ◌-◌, ◌^◌, min, length, vec_len, vec_capacity, IfOk, IfErr, OnOk, OnErr, IsTrue};
ghost use Rattle.event_key.specs.Stamps.{time_part};
ghost use Rattle.event_key.specs.declared.stamp.TheConstants.{NO_STAMP};
ghost use Rattle.model_core.specs.Meaning.{Meaning};
ghost use Rattle.key_order.specs.Stamps.{least_stamp};
ghost use Rattle.object_log.specs.Dones.{Done};
ghost use Rattle.object_log.specs.Fired.{HasFiredInto};
ghost use Rattle.object_log.specs.Objects.{HasFired, HasUndone, IsNewest, IsSameObject};

use crate::done::{Done, Verdict};
use crate::firing::{Kept, changes_of, keep_effect, make_room};
use crate::pool::LogPool;
use event_chain::{Cell, Chain};
use event_firing::settle;
use event_key::NO_STAMP;
use model_core::model::{Model as SimulationModel, keeps_laws};
use model_core::{Cells, Change, Effect, Ending, Event, OutOfMemory};
use random_streams::Stream;
use std::alloc::Global;
use std::marker::Model;

/// An object with its cells, and how many events it has sent.
#[derive(Drop)]
pub struct Object {
    number: u32,
    cells: Cells,
    sent: u64,
    // the random words at hand, kept from one event to the next
    words: Stream,
}

impl Model for Object {
    ghost use Rattle.object_log.specs.Objects.{KeptObject};

    ghost Value = { KeptObject };

    ghost view = { λ o. record { object = o.number; cells = o.cells; sent = o.sent } };
}

/// A fired event, and the least stamp that it sends, or `NO_STAMP`.
pub(crate) struct Fired {
    pub done: Cell<Done>,
    pub least: u64,
    ghost least_is: { least ≡ least_stamp NO_STAMP done.sends },
}

impl Object {
    /// An object that has sent so many events.
    pub fn new(number: u32, cells: Cells, sent: u64) -> Object
        ensures { result ≡ record { object = number; cells = cells; sent = sent } }
    {
        Object {
            number,
            cells,
            sent,
            words: Stream::new(0, number, 0),
        }
    }

    /// Which object it is.
    pub fn number(&self) -> u32
        ensures { result ≡ self.now.object }
    {
        self.number
    }

    /// Its cells.
    pub fn cells(&self) -> &Cells
        ensures { result.now ≡ self.now.cells }
    {
        &self.cells
    }

    /// How many events it has sent.
    pub fn sent(&self) -> u64
        ensures { result ≡ self.now.sent }
    {
        self.sent
    }

    /// Fires an event and keeps what takes it back. The sheet is written over. Memory is taken only for what the pool
    /// lacks; if none is left, the event comes back.
    pub(crate) fn fire<M: SimulationModel>(
        &mut self,
        alloc: Global,
        model: &M,
        sheet: &mut Effect,
        pool: &mut LogPool,
        event: Cell<Event>,
    ) -> Result<Fired, (OutOfMemory, Cell<Event>)>
        requires object { self.old.object < (M.meaning model.now).objects }
        requires lawful { IsTrue ((M.meaning model.now).lawful self.old.object self.old.cells.contents) }
        requires dest { event.key.dest ≡ self.old.object }
        requires time { time_part event.key.stamp < 2 ^ 46 }
        requires sent { self.old.sent < 2 ^ 60 }
        ensures ok { IfOk result (λ fired. HasFired (M.meaning model.now) self.old self.new event fired.done) }
        ensures lawful { OnOk result (IsTrue ((M.meaning model.now).lawful self.new.object self.new.cells.contents)) }
        ensures err { OnErr result (IsSameObject self.old self.new) }
        ensures back { IfErr result (λ refused. refused.1 ≡ event) }
        ensures spare { pool.old.events + self.old.sent ≤ pool.new.events + self.new.sent }
        ensures entries { pool.old.entries ≤ pool.new.entries + 1 }
        ensures entries_kept { OnErr result (pool.old.entries ≤ pool.new.entries) }
        ensures lent { OnOk result (pool.new.lent ≡ pool.old.lent + 1) }
        ensures refused { OnErr result (pool.new.lent ≡ pool.old.lent) }
    {
        keeps_laws(model);
        let Ok(ending) = settle(model, &mut self.words, &self.cells, event.get(), sheet) else {
            return Err((OutOfMemory, event));
        };
        let changes = changes_of(&ending, sheet);
        let room = make_room(alloc, &mut self.cells, pool, changes);
        let Ok(undo) = room else {
            return Err((OutOfMemory, event));
        };
        match ending {
            Ending::Fails(code) => {
                let done = Done {
                    event,
                    undo,
                    sends: Chain::new(),
                    verdict: Verdict::Failed(code),
                };
                Ok(Fired {
                    done: pool.enter(done),
                    least: NO_STAMP,
                })
            }
            Ending::Goes => {
                let Kept { done, least } = keep_effect(
                    &mut self.cells,
                    self.sent,
                    pool,
                    event,
                    undo,
                    sheet,
                );
                self.sent += done.sends.len() as u64;
                Ok(Fired {
                    done: pool.enter(done),
                    least,
                })
            }
        }
    }

    /// Fires an event, whose effect is written into the sheet, and puts what undoes its changes behind a list that has room for
    /// it. What the event sends stands in the sheet.
    pub fn fire_into<M: SimulationModel>(
        &mut self,
        model: &M,
        sheet: &mut Effect,
        event: &Event,
        undo: &mut Vec<Change>,
    ) -> Result<Ending, OutOfMemory>
        requires object { self.old.object < (M.meaning model.now).objects }
        requires lawful { IsTrue ((M.meaning model.now).lawful self.old.object self.old.cells.contents) }
        requires dest { event.now.key.dest ≡ self.old.object }
        requires time { time_part event.now.key.stamp < 2 ^ 46 }
        requires sent { self.old.sent < 2 ^ 60 }
        requires room { vec_len undo.old + 16 ≤ vec_capacity undo.old }
        ensures ok { IfOk result (λ ending. HasFiredInto (M.meaning model.now) self.old self.new event.now ending sheet.new undo.old.items undo.new.items) }
        ensures lawful { OnOk result (IsTrue ((M.meaning model.now).lawful self.new.object self.new.cells.contents)) }
        ensures err { OnErr result (IsSameObject self.old self.new) }
        ensures kept { OnErr result (undo.new.items ≡ undo.old.items) }
    {
        keeps_laws(model);
        let Ok(ending) = settle(model, &mut self.words, &self.cells, event, sheet) else {
            return Err(OutOfMemory);
        };
        match ending {
            Ending::Fails(code) => Ok(Ending::Fails(code)),
            Ending::Goes => {
                let changes = sheet.changes.as_slice();
                let Ok(()) = self.cells.room(changes) else {
                    return Err(OutOfMemory);
                };
                let from = undo.len();
                let Ok(()) = undo.extend_from_slice(changes) else {
                    unreachable!()
                };
                let (_, added) = undo.as_mut_slice().split_at_mut(from);
                self.cells.apply(added);
                self.sent += sheet.sends.as_slice().len() as u64;
                Ok(Ending::Goes)
            }
        }
    }

    /// Takes back the event that it fired last of those that it has not taken back, by what undoes its changes and how many
    /// messages it sent. Takes no memory.
    pub fn take_back(&mut self, undo: &mut [Change], sends: usize)
        requires { (d : Done) × IsNewest self.old d × (undo.old ≡ d.undo) × (sends ≡ length d.sends) }
        ensures { (d : Done) → undo.old ≡ d.undo → sends ≡ length d.sends → HasUndone self.old self.new d }
    {
        self.cells.undo(undo);
        self.sent -= sends as u64;
    }

    /// Takes back the event that it fired last of those that it has not taken back. What else the event leaves goes to
    /// the pool.
    pub(crate) fn undo(&mut self, done: Cell<Done>, pool: &mut LogPool) -> Cell<Event>
        requires { IsNewest self.old done }
        ensures undone { HasUndone self.old self.new done }
        ensures event { result ≡ done.event }
        ensures events { pool.new.events ≡ min (pool.old.events + length done.sends) (2 ^ 60) }
        ensures entries { pool.new.entries ≡ min (pool.old.entries + 1) (2 ^ 60) }
        ensures lent { pool.new.lent ≡ pool.old.lent - 1 }
    {
        let Done {
            event,
            mut undo,
            sends,
            verdict: _,
        } = pool.take_out(done);
        self.take_back(undo.as_mut_slice(), sends.len());
        pool.keep(undo, sends);
        event
    }
}
