//! A simulation under way, and its next event.
ghost use Rattle.std.specs.Prelude.{◌≡◌, IfOk, OnOk};
ghost use Rattle.event_key.specs.declared.stamp.TheConstants.{NO_STAMP};
ghost use Rattle.sim_spec.specs.State.{Lawful, initial_state};
ghost use Rattle.sim_spec.specs.Standing.{end_or_limit};
ghost use Rattle.sim_spec.specs.Run.{next};
ghost use Rattle.tick_queue.specs.Queues.{IsSettled};
ghost use Rattle.one_thread.specs.Engines.{state_of};
ghost use Rattle.one_thread.specs.Turns.{IsOpen, IsTurn, MayFire};

use crate::ahead::ReadAhead;
use crate::beginning::first_events;
use crate::bucket_end::BucketEnd;
use crate::sending::send_all;
use crate::turn::Turn;
use event_firing::{Object, first_objects};
use event_key::end_bound;
use model_core::model::{Model as SimulationModel, keeps_laws};
use model_core::{Effect, Ending, OutOfMemory};
use sim_spec::{Stop, Terms};
use std::alloc::Global;
use std::marker::Model;
use tick_queue::TickQueue;

/// The objects, the pending events, and how many events are done.
#[derive(Drop)]
pub struct Course {
    objects: Vec<Object>,
    queue: TickQueue,
    count: u64,
    ahead: ReadAhead,
}

impl Model for Course {
    ghost use Rattle.one_thread.specs.Engines.{Course as CourseView};

    ghost Value = { CourseView };

    ghost view = { λ c. record { objects = c.objects.items; queue = c.queue; count = c.count } };
}

impl Course {
    /// The start of a simulation.
    #[tactic(auto, unfolding(sim_spec::specs::State::initial_state))]
    pub fn begin<M: SimulationModel>(alloc: Global, model: &M) -> Result<Course, OutOfMemory>
        ensures state { IfOk result (λ course. state_of course ≡ initial_state (M.meaning model.now)) }
        ensures settled { IfOk result (λ course. IsSettled course.queue) }
    {
        keeps_laws(model);
        let objects = first_objects(alloc, model)?;
        let mut queue = first_events(alloc, model)?;
        ReadAhead::pace(&objects, &mut queue);
        queue.settle()?;
        Ok(Course {
            objects,
            queue,
            count: 0,
            ahead: ReadAhead::new(),
        })
    }

    /// How many events are done.
    pub fn count(&self) -> u64
        ensures { result ≡ self.now.count }
    {
        self.count
    }

    /// Whether the end or the limit comes next.
    pub fn end_or_limit<M: SimulationModel>(&self, model: &M, terms: &Terms) -> Option<Stop>
        requires { IsSettled self.now.queue }
        ensures { result ≡ end_or_limit (next (M.meaning model.now) terms.now (state_of self.now)) }
    {
        let Some(event) = self.queue.first() else {
            return Some(Stop::End);
        };
        if event.key.stamp >= end_bound(terms.end) {
            return Some(Stop::End);
        }
        if self.count == terms.limit {
            return Some(Stop::Limit);
        }
        None
    }

    /// Takes the events that came since the last bucket for fresh no more.
    pub fn merge(&mut self)
        ensures state { state_of self.new ≡ state_of self.old }
        ensures fresh { self.new.queue.fresh_least ≡ NO_STAMP }
    {
        self.queue.merge();
    }

    /// Begins another bucket, where no event is left below the horizon of the last one.
    #[inline(always)]
    pub fn begin_next(&mut self)
        requires settled { IsSettled self.old.queue }
        ensures state { state_of self.new ≡ state_of self.old }
        ensures settled { IsSettled self.new.queue }
        ensures due { IsOpen self.new }
    {
        if let Some(event) = self.queue.first()
            && event.key.stamp >= self.queue.fresh_least()
        {
            self.queue.merge();
        }
    }

    /// Brings the first event to hand. Answers whether the queue had paused and objects are many.
    #[inline(always)]
    pub fn settle(&mut self) -> Result<bool, OutOfMemory>
        ensures state { OnOk result (state_of self.new ≡ state_of self.old) }
        ensures fresh { self.new.queue.fresh_least ≡ self.old.queue.fresh_least }
        ensures settled { OnOk result (IsSettled self.new.queue) }
    {
        if !self.queue.pauses() {
            return Ok(false);
        }
        self.queue.settle()?;
        Ok(self.ahead.look(&self.objects, &self.queue))
    }

    /// Fires the next event of the bucket, where there is one, and tells of it in the sheet.
    #[inline(always)]
    pub fn turn<M: SimulationModel>(
        &mut self,
        model: &M,
        terms: &Terms,
        sheet: &mut Effect,
    ) -> Result<Turn, OutOfMemory>
        requires lawful { Lawful (M.meaning model.now) terms.now (state_of self.old) }
        requires settled { IsSettled self.old.queue }
        ensures { IfOk result (λ turn. IsTurn (M.meaning model.now) terms.now self.old turn sheet.new.note self.new) }
    {
        let horizon = self.queue.fresh_least().min(end_bound(terms.end));
        let Some(event) = self.queue.first() else {
            return Ok(Turn::Ends(BucketEnd::Whole { horizon }));
        };
        if event.key.stamp >= horizon {
            return Ok(Turn::Ends(BucketEnd::Whole { horizon }));
        }
        if self.count == terms.limit {
            return Ok(Turn::Ends(BucketEnd::Limit));
        }
        self.fire(model, terms, sheet)
    }

    /// Fires the first event, and tells of it in the sheet.
    #[inline(always)]
    fn fire<M: SimulationModel>(
        &mut self,
        model: &M,
        terms: &Terms,
        sheet: &mut Effect,
    ) -> Result<Turn, OutOfMemory>
        requires { MayFire (M.meaning model.now) terms.now self.old }
        ensures { IfOk result (λ turn. IsTurn (M.meaning model.now) terms.now self.old turn sheet.new.note self.new) }
    {
        keeps_laws(model);
        let Some(event) = self.queue.first() else {
            unreachable!()
        };
        let key = event.key;
        let object = &mut self.objects[key.dest as usize];
        let serial = object.sent();
        match object.fire(model, event, sheet)? {
            Ending::Goes => {
                self.queue.drop_first();
                send_all(&mut self.queue, &key, serial, sheet.sends.as_slice())?;
                self.count += 1;
                Ok(Turn::Does(key))
            }
            Ending::Fails(code) => Ok(Turn::Ends(BucketEnd::Fault { key, code })),
        }
    }
}
