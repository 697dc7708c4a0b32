//! The engine, as its callers see it.
ghost use Rattle.std.specs.Prelude.{◌≡◌, ◌<◌, ◌++◌, ◌∷◌, [], ℕ, Option, None, IfOk, OnOk, OnErr};
ghost use Rattle.std.specs.Arc.{arc_value};
ghost use Rattle.event_key.specs.declared.key.Key.{Key};
ghost use Rattle.sim_spec.specs.State.{State, initial_state};
ghost use Rattle.sim_spec.specs.Standing.{stands, spent, ended, CycleGives};
ghost use Rattle.one_thread.specs.Ends.{HasTold, HasToldStretch};
ghost use Rattle.one_thread.specs.Telling.{TellsOne};

use crate::bucket::fire_bucket;
use crate::bucket_end::BucketEnd;
use crate::course::Course;
use crate::stretch::fire_stretch;
use event_key::Key;
use model_core::model::Model as SimulationModel;
use model_core::{Effect, Note, OutOfMemory, RecordBuffer, Records};
use run_recorder::Recorder;
use sim_spec::laws::law_initial;
use sim_spec::{Bucket, Stop, Terms};
use std::alloc::Global;
use std::marker::Model;
use std::mem;
use std::sync::Arc;

/// A model, how far it goes, and the simulation, as far as it has come.
#[derive(Drop)]
pub struct OneThread<M: SimulationModel> {
    model: Arc<M>,
    terms: Terms,
    // None once memory has run out
    course: Option<Course>,
    // what the last event did, whose room serves for the next
    sheet: Effect,
    // where the records of the next bucket are put
    spare: RecordBuffer,
    fault: Option<(Key, u32)>,
}

impl<M: SimulationModel> Model for OneThread<M> {
    ghost use Rattle.std.specs.Arc.{arc_value};
    ghost use Rattle.sim_spec.specs.Standing.{IsLawfulStanding};
    ghost use Rattle.one_thread.specs.Engines.{EngineView, standing_of, IsReady};

    ghost Value = { EngineView M };

    ghost view = { λ e. record { model = arc_value e.model; terms = e.terms; standing = standing_of e.course e.fault } };

    ghost invariant = { λ e. IsLawfulStanding (M.meaning (arc_value e.model)) e.terms (standing_of e.course e.fault) × IsReady e.course };
}

/// Lets a simulation go. It is a function of its own, since each call of a function clears the room of its locals, and
/// a course is large.
fn spend(course: &mut Option<Course>)
    ensures { course.new ≡ None }
{
    *course = None;
}

impl<M: SimulationModel> OneThread<M> {
    /// The engine at the start of a simulation. It is refused where memory runs out.
    pub fn new(alloc: Global, model: Arc<M>, terms: Terms) -> Result<OneThread<M>, OutOfMemory>
        ensures model { IfOk result (λ engine. engine.model ≡ arc_value model) }
        ensures terms { IfOk result (λ engine. engine.terms ≡ terms) }
        ensures standing { IfOk result (λ engine. engine.standing ≡ stands (initial_state (M.meaning (arc_value model))) None) }
    {
        law_initial(&*model, &terms);
        let course = Course::begin(alloc, &*model)?;
        Ok(OneThread {
            model,
            terms,
            course: Some(course),
            sheet: Effect::new(alloc)?,
            spare: RecordBuffer::new(alloc),
            fault: None,
        })
    }

    /// The model.
    pub fn model(&self) -> &M
        ensures { result.now ≡ self.now.model }
    {
        &self.model
    }

    /// How far the simulation goes.
    pub fn terms(&self) -> Terms
        ensures { result ≡ self.now.terms }
    {
        self.terms
    }

    /// How many events are done: none, once memory has run out.
    pub fn count(&self) -> u64
        ensures standing { (s : State) (fault : Option (Key × ℕ)) → self.now.standing ≡ stands s fault → result ≡ s.count }
        ensures spent { self.now.standing ≡ spent → result ≡ 0 }
    {
        match &self.course {
            Some(course) => course.count(),
            None => 0,
        }
    }

    /// Why no bucket comes any more. There is no reason once memory has run out.
    pub fn ended(&self) -> Option<Stop>
        ensures { result ≡ ended (M.meaning self.now.model) self.now.terms self.now.standing }
    {
        let Some(course) = &self.course else {
            return None;
        };
        match self.fault {
            Some((key, code)) => Some(Stop::Fault { key, code }),
            None => course.end_or_limit(&*self.model, &self.terms),
        }
    }

    /// Fires the events of one bucket, and tells of each as it is done: `tell` puts it into what takes records. Answers how
    /// the bucket ended. Where memory runs out, here or in `tell`, the engine is spent: each later call is refused too.
    pub fn tell_bucket<T: Recorder, F: Fn(&mut T, &M, &Key, &Note) -> Result<(), OutOfMemory>>(
        &mut self,
        into: &mut T,
        tell: &F,
    ) -> Result<BucketEnd, OutOfMemory>
        requires goes_on { ended (M.meaning self.old.model) self.old.terms self.old.standing ≡ None }
        requires may { (t : _) (model : _) (key : _) (note : _) → model.now ≡ self.old.model → key.now.dest < (M.meaning self.old.model).objects
            → F.pre tell.now t model key note }
        requires does { (t : _) (model : _) (key : _) (note : _) (r : _) (f : _) → model.now ≡ self.old.model
            → F.post tell.now t model key note r f → TellsOne (T.holds (M.meaning self.old.model)) t.now key.now note.now r f.now }
        ensures told { IfOk result (λ end. HasTold (T.holds (M.meaning self.old.model)) (M.meaning self.old.model) self.old.terms
            self.old.standing into.old end into.new self.new.standing) }
        ensures refused { OnErr result (self.new.standing ≡ spent) }
        ensures model { self.new.model ≡ self.old.model }
        ensures terms { self.new.terms ≡ self.old.terms }
    {
        let Some(course) = &mut self.course else {
            return Err(OutOfMemory);
        };
        match fire_bucket(
            course,
            &*self.model,
            &self.terms,
            &mut self.sheet,
            into,
            tell,
        ) {
            Ok(end) => {
                self.fault = end.fault();
                Ok(end)
            }
            Err(refused) => {
                spend(&mut self.course);
                Err(refused)
            }
        }
    }

    /// Fires the next events of a bucket, and tells of each as it is done: all that are left, or, where objects are many,
    /// `enough` of them and a few more. Where no event of the last bucket is left, another one begins. Where memory runs
    /// out, here or in `tell`, the engine is spent: each later call is refused too.
    pub fn tell_stretch<T: Recorder, F: Fn(&mut T, &M, &Key, &Note) -> Result<(), OutOfMemory>>(
        &mut self,
        enough: u32,
        into: &mut T,
        tell: &F,
    ) -> Result<(), OutOfMemory>
        requires goes_on { ended (M.meaning self.old.model) self.old.terms self.old.standing ≡ None }
        requires may { (t : _) (model : _) (key : _) (note : _) → model.now ≡ self.old.model → key.now.dest < (M.meaning self.old.model).objects
            → F.pre tell.now t model key note }
        requires does { (t : _) (model : _) (key : _) (note : _) (r : _) (f : _) → model.now ≡ self.old.model
            → F.post tell.now t model key note r f → TellsOne (T.holds (M.meaning self.old.model)) t.now key.now note.now r f.now }
        ensures told { OnOk result (HasToldStretch (T.holds (M.meaning self.old.model)) (M.meaning self.old.model) self.old.terms
            self.old.standing into.old into.new self.new.standing) }
        ensures refused { OnErr result (self.new.standing ≡ spent) }
        ensures model { self.new.model ≡ self.old.model }
        ensures terms { self.new.terms ≡ self.old.terms }
    {
        let Some(course) = &mut self.course else {
            return Err(OutOfMemory);
        };
        match fire_stretch(
            course,
            &*self.model,
            &self.terms,
            enough,
            &mut self.sheet,
            into,
            tell,
        ) {
            Ok(fault) => {
                self.fault = fault;
                Ok(())
            }
            Err(refused) => {
                spend(&mut self.course);
                Err(refused)
            }
        }
    }

    /// Takes the room for the records of the next bucket.
    fn take_spare(&mut self, alloc: Global) -> RecordBuffer
        ensures same { self.new ≡ self.old }
        ensures empty { result.items ≡ [] }
    {
        let mut spare = mem::replace(&mut self.spare, RecordBuffer::new(alloc));
        spare.clear();
        spare
    }

    /// Fires the events of one bucket, and answers what it came to. Where memory runs out, the engine is spent: each later
    /// call is refused too.
    pub fn bucket(&mut self, alloc: Global) -> Result<Bucket, OutOfMemory>
        requires { ended (M.meaning self.old.model) self.old.terms self.old.standing ≡ None }
        ensures gives { CycleGives (M.meaning self.old.model) self.old.terms self.old.standing result self.new.standing }
        ensures model { self.new.model ≡ self.old.model }
        ensures terms { self.new.terms ≡ self.old.terms }
    {
        let mut done = self.take_spare(alloc);
        let put = |done: &mut RecordBuffer, _model: &M, key: &Key, note: &Note|
            ensures { OnOk result (done.new.items ≡ done.old.items ++ (key.now, note.now) ∷ []) }
        { done.push(key, note) };
        let end = self.tell_bucket(&mut done, &put)?;
        Ok(end.bucket(Records::new(done)))
    }

    /// Takes back the records of a bucket that nobody reads any more: those of the next one are put where they stood.
    pub fn give_back(&mut self, records: Records)
        ensures { self.new ≡ self.old }
    {
        self.spare = records.into_buffer();
    }
}
