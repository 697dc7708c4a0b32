//! An object as an engine keeps it.
ghost use Rattle.std.specs.Prelude.{◌≡◌, ◌+◌, ◌<◌, ◌^◌, IfOk, OnOk, OnErr, IsTrue};
ghost use Rattle.delta_exchange.specs.Changes.{AllFit, cells_after_all};
ghost use Rattle.event_key.specs.Stamps.{time_part};
ghost use Rattle.model_core.specs.Effects.{outcome_by};
ghost use Rattle.event_firing.specs.Reactions.{IsReaction};
ghost use Rattle.event_firing.specs.Settling.{settled};

use crate::settling::settle;
use model_core::model::{Model as SimulationModel, keeps_laws};
use model_core::{Cells, Change, Effect, Ending, Event, OutOfMemory};
use random_streams::Stream;
use std::marker::Model;

/// An object's cells, and how many events it has sent. Its random words are kept from one event to the next, since
/// they are made many at once.
#[derive(Drop)]
pub struct Object {
    cells: Cells,
    sent: u64,
    words: Stream,
}

impl Model for Object {
    ghost use Rattle.sim_spec.specs.Firing.{ObjectState};

    ghost Value = { ObjectState };

    ghost view = { λ object. record { cells = object.cells.contents; sent = object.sent } };
}

impl Object {
    /// An object that has sent nothing yet.
    pub fn new(cells: Cells) -> Object
        ensures { result ≡ record { cells = cells.contents; sent = 0 } }
    {
        let words = Stream::new(0, 0, 0);
        Object {
            cells,
            sent: 0,
            words,
        }
    }

    /// Its cells.
    pub fn cells(&self) -> &Cells
        ensures { result.now.contents ≡ self.now.cells }
    {
        &self.cells
    }

    /// How many events it has sent.
    pub fn sent(&self) -> u64
        ensures { result ≡ self.now.sent }
    {
        self.sent
    }

    /// Reads a word at its beginning and two in its middle, and answers a number that says nothing: who reads an object ahead of
    /// its events wants its lines in a cache.
    #[inline(always)]
    pub fn touch(&self) -> u64 {
        u64::from(self.cells.words()) ^ self.sent ^ self.words.place()
    }

    /// Does the changes of an event that sends so many events, or nothing where no memory is left.
    #[inline(always)]
    pub fn take_effect(&mut self, changes: &[Change], sends: u64) -> Result<(), OutOfMemory>
        requires fits { AllFit changes.now self.old.cells }
        requires sends { self.old.sent + sends < 2 ^ 64 }
        ensures ok { OnOk result (self.new ≡ record { cells = cells_after_all changes.now self.old.cells; sent = self.old.sent + sends }) }
        ensures err { OnErr result (self.new ≡ self.old) }
    {
        self.cells.room(changes)?;
        self.cells.make(changes);
        self.sent += sends;
        Ok(())
    }

    /// What an event comes to here. The object stays as it is but for the words that it has at hand.
    #[inline(always)]
    fn settle<M: SimulationModel>(
        &mut self,
        model: &M,
        event: &Event,
        sheet: &mut Effect,
    ) -> Result<Ending, OutOfMemory>
        requires object { event.now.key.dest < (M.meaning model.now).objects }
        requires lawful { IsTrue ((M.meaning model.now).lawful event.now.key.dest self.old.cells) }
        requires time { time_part event.now.key.stamp < 2 ^ 46 }
        ensures same { self.new ≡ self.old }
        ensures outcome { IfOk result (λ ending. outcome_by ending sheet.new
            ≡ settled event.now.key.stamp ((M.meaning model.now).effect event.now.key.dest self.old.cells event.now)) }
    {
        settle(model, &mut self.words, &self.cells, event, sheet)
    }

    /// Fires an event at this object: what it sends and tells stands in the sheet. After a refusal the object is as it was.
    #[inline(always)]
    pub fn fire<M: SimulationModel>(
        &mut self,
        model: &M,
        event: &Event,
        sheet: &mut Effect,
    ) -> Result<Ending, OutOfMemory>
        requires object { event.now.key.dest < (M.meaning model.now).objects }
        requires lawful { IsTrue ((M.meaning model.now).lawful event.now.key.dest self.old.cells) }
        requires time { time_part event.now.key.stamp < 2 ^ 46 }
        requires sent { self.old.sent < 2 ^ 60 }
        ensures ok { IfOk result (λ ending. IsReaction (M.meaning model.now) self.old event.now sheet.new ending self.new) }
        ensures err { OnErr result (self.new ≡ self.old) }
    {
        keeps_laws(model);
        let ending = self.settle(model, event, sheet)?;
        if let Ending::Goes = ending {
            let sends = sheet.sends.as_slice().len() as u64;
            self.take_effect(sheet.changes.as_slice(), sends)?;
        }
        Ok(ending)
    }
}
