//! A bucket: the events below one event horizon.
ghost use Rattle.std.specs.Prelude.{◌≡◌, ◌<◌, IfOk, OnOk};
ghost use Rattle.sim_spec.specs.Cut.{cut, after};
ghost use Rattle.sim_spec.specs.State.{Lawful};
ghost use Rattle.tick_queue.specs.Queues.{IsSettled};
ghost use Rattle.one_thread.specs.Engines.{state_of};
ghost use Rattle.one_thread.specs.Ends.{HasEnd};
ghost use Rattle.one_thread.specs.Telling.{TellsAll, TellsOne};

use crate::bucket_end::BucketEnd;
use crate::course::Course;
use crate::turn::Turn;
use event_key::Key;
use model_core::model::{Model, keeps_laws};
use model_core::{Effect, Note, OutOfMemory};
use run_recorder::Recorder;
use sim_spec::Terms;

/// Fires the events of one bucket in their order, each over the same sheet, and tells of each as it is done. Answers how the
/// bucket ended.
pub fn fire_bucket<
    M: Model,
    T: Recorder,
    F: Fn(&mut T, &M, &Key, &Note) -> Result<(), OutOfMemory>,
>(
    course: &mut Course,
    model: &M,
    terms: &Terms,
    sheet: &mut Effect,
    into: &mut T,
    tell: &F,
) -> Result<BucketEnd, OutOfMemory>
    requires lawful { Lawful (M.meaning model.now) terms.now (state_of course.old) }
    requires may { (t : _) (key : _) (note : _) → key.now.dest < (M.meaning model.now).objects → F.pre tell.now t model key note }
    requires does { (t : _) (key : _) (note : _) (r : _) (f : _) → F.post tell.now t model key note r f
        → TellsOne (T.holds (M.meaning model.now)) t.now key.now note.now r f.now }
    ensures end { IfOk result (λ end. HasEnd (cut (M.meaning model.now) terms.now (state_of course.old)) end) }
    ensures told { OnOk result (TellsAll (T.holds (M.meaning model.now)) into.old
        (cut (M.meaning model.now) terms.now (state_of course.old)).done into.new) }
    ensures lawful { OnOk result (Lawful (M.meaning model.now) terms.now (state_of course.new)) }
    ensures settled { OnOk result (IsSettled course.new.queue) }
    ensures after { OnOk result (state_of course.new ≡ after (M.meaning model.now) terms.now (state_of course.old)) }
{
    keeps_laws(model);
    course.merge();
    loop {
        course.settle()?;
        match course.turn(model, terms, sheet)? {
            Turn::Does(key) => tell(into, model, &key, &sheet.note)?,
            Turn::Ends(end) => return Ok(end),
        }
    }
}
