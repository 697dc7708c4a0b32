//! A stretch of a run: events one after another, of a whole bucket or a part of one.
ghost use Rattle.std.specs.Prelude.{◌<◌, IfOk, OnOk, None};
ghost use Rattle.sim_spec.specs.Standing.{stands};
ghost use Rattle.sim_spec.specs.State.{Lawful};
ghost use Rattle.tick_queue.specs.Queues.{IsSettled};
ghost use Rattle.one_thread.specs.Engines.{state_of};
ghost use Rattle.one_thread.specs.Ends.{HasToldStretch};
ghost use Rattle.one_thread.specs.Telling.{TellsOne};

use crate::course::Course;
use crate::turn::Turn;
use event_key::Key;
use model_core::model::{Model, keeps_laws};
use model_core::{Effect, Note, OutOfMemory};
use run_recorder::Recorder;
use sim_spec::Terms;

/// Fires the next events of a bucket in their order, each over the same sheet, and tells of each as it is done. Answers the
/// fault that comes next, where one does. Where no event of the last bucket is left, another one begins. Where objects are
/// many it ends once `enough` events are done, at a pause of the queue, so that no event has a test for that.
pub fn fire_stretch<
    M: Model,
    T: Recorder,
    F: Fn(&mut T, &M, &Key, &Note) -> Result<(), OutOfMemory>,
>(
    course: &mut Course,
    model: &M,
    terms: &Terms,
    enough: u32,
    sheet: &mut Effect,
    into: &mut T,
    tell: &F,
) -> Result<Option<(Key, u32)>, OutOfMemory>
    requires lawful { Lawful (M.meaning model.now) terms.now (state_of course.old) }
    requires settled { IsSettled course.old.queue }
    requires may { (t : _) (key : _) (note : _) → key.now.dest < (M.meaning model.now).objects → F.pre tell.now t model key note }
    requires does { (t : _) (key : _) (note : _) (r : _) (f : _) → F.post tell.now t model key note r f
        → TellsOne (T.holds (M.meaning model.now)) t.now key.now note.now r f.now }
    ensures told { IfOk result (λ fault. HasToldStretch (T.holds (M.meaning model.now)) (M.meaning model.now) terms.now
        (stands (state_of course.old) None) into.old into.new (stands (state_of course.new) fault)) }
    ensures lawful { OnOk result (Lawful (M.meaning model.now) terms.now (state_of course.new)) }
    ensures settled { OnOk result (IsSettled course.new.queue) }
{
    keeps_laws(model);
    course.begin_next();
    let upto = course.count().saturating_add(u64::from(enough));
    loop {
        match course.turn(model, terms, sheet)? {
            Turn::Does(key) => tell(into, model, &key, &sheet.note)?,
            Turn::Ends(end) => return Ok(end.fault()),
        }
        if course.settle()? && course.count() >= upto {
            return Ok(None);
        }
    }
}
