//! The engine for one thread, on any model.
ghost use Rattle.std.specs.Prelude.{◌≡◌, ◌<◌, ◌++◌, [], IfOk, OnOk, None};
ghost use Rattle.std.specs.Arc.{arc_value};
ghost use Rattle.sim_spec.specs.State.{initial_state};
ghost use Rattle.sim_io.specs.Texts.{event_lines};
ghost use Rattle.sim_spec.specs.Standing.{ended, stands};
ghost use Rattle.model_program.specs.RunStandings.{OneCycles, OneStandsAt, OneWrites};

use crate::run::told::Told;
use event_key::Key;
use model_core::model::Model;
use model_core::{Note, OutOfMemory, Records};
use one_thread::OneThread;
use sim_spec::{Bucket, Engine, Stop, Terms};
use sim_text::LineBuffer;
use std::alloc::Global;
use std::sync::Arc;

/// After about how many events of a large bucket their lines are written: so few that they take little memory.
const STRETCH: u32 = 1_024;

/// A simulation of a model, on one thread.
#[derive(Drop)]
pub struct OneThreadRun<M: Model> {
    pub engine: OneThread<M>,
    pub told: Told,
}

impl<M: Model> OneThreadRun<M> {
    /// The simulation at its start.
    pub fn new(alloc: Global, model: Arc<M>, terms: Terms) -> Result<OneThreadRun<M>, OutOfMemory>
        ensures model { IfOk result (λ run. run.engine.model ≡ arc_value model) }
        ensures terms { IfOk result (λ run. run.engine.terms ≡ terms) }
        ensures begins { IfOk result (λ run. OneStandsAt M.meaning run (stands (initial_state (M.meaning (arc_value model))) None)) }
    {
        let engine = OneThread::new(alloc, model, terms)?;
        let told = Told::new(engine.ended(), engine.count());
        Ok(OneThreadRun { engine, told })
    }

    /// Hands the engine the records that were given back, whose room the next cycle takes.
    fn reuse_room(&mut self)
        ensures { self.new.engine ≡ self.old.engine }
    {
        if let Some(records) = self.told.spare.take() {
            self.engine.give_back(records);
        }
    }

    /// One cycle.
    pub fn cycle(&mut self, alloc: Global) -> Result<Bucket, OutOfMemory>
        requires { ended (M.meaning self.old.engine.model) self.old.engine.terms self.old.engine.standing ≡ None }
        ensures { OneCycles M.meaning self.old result self.new }
    {
        self.reuse_room();
        let bucket = self.engine.bucket(alloc);
        self.told = Told::new(self.engine.ended(), self.engine.count());
        bucket
    }
}

impl<M: Model> OneThreadRun<M> {
    /// A stretch of the run, which appends the lines of its own events. After a refusal nothing more is done.
    pub fn write_stretch(
        &mut self,
        alloc: Global,
        lines: &mut LineBuffer,
    ) -> Result<(), OutOfMemory>
        requires goes_on { ended (M.meaning self.old.engine.model) self.old.engine.terms self.old.engine.standing ≡ None }
        requires empty { lines.old ≡ [] }
        ensures { OneWrites M.meaning self.old result self.new lines.new }
    {
        let put = |lines: &mut LineBuffer, model: &M, key: &Key, note: &Note|
            requires { key.now.dest < (M.meaning model.now).objects }
            ensures { OnOk result (lines.new ≡ lines.old ++ event_lines (M.meaning model.now) key.now note.now) }
        { lines.put(alloc, model, key, note) };
        self.engine.tell_stretch(STRETCH, lines, &put)?;
        self.told.ended = self.engine.ended();
        self.told.count = self.engine.count();
        Ok(())
    }
}

impl<M: Model> Engine for OneThreadRun<M> {
    ghost use Rattle.model_program.specs.RunStandings.{OneStandsAt};

    ghost meaning = { λ run. M.meaning run.engine.model };

    ghost terms = { λ run. run.engine.terms };

    ghost stands_at = { λ run. OneStandsAt M.meaning run };

    fn give_back(&mut self, records: Records) {
        self.told.spare = Some(records);
    }

    fn ended(&self) -> Option<Stop> {
        self.told.ended
    }

    fn count(&self) -> u64 {
        self.told.count
    }
}
