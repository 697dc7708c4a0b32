//! The first cycles of a simulation.
ghost use Rattle.std.specs.Prelude.{◌≡◌, OnOk, None};
ghost use Rattle.sim_spec.specs.Cycles.{cycles_for};
ghost use Rattle.sim_spec.specs.State.{State};
ghost use Rattle.sim_spec.specs.Standing.{Standing, ended, DoesCycles};
ghost use Rattle.sim_text.specs.Rest.{BeginsAt, StandsAtState};
ghost use Rattle.sim_text.specs.SoFar.{HasToldFirst};
ghost use Rattle.sim_text.specs.WholeTexts.{first_lines};
ghost use Rattle.sim_text.specs.Written.{HasWritten};

use crate::bucket_text::put_records;
use crate::unfinished::Unfinished;
use model_core::OutOfMemory;
use model_core::model::Model;
use sim_io::{LineWriter, Sink, write_all};
use sim_spec::laws::{law_bucket, law_next};
use sim_spec::{Bucket, Engine, Terms};
use std::alloc::Global;

/// Runs an engine from a state of its model until so many cycles are done or it has ended, and writes the records of each
/// cycle after it, before the next one begins. The engine stands at the state after them then.
pub fn simulate_first<
    M: Model,
    E: Engine,
    F: Fn(&mut E, Global, &K) -> Result<Bucket, OutOfMemory>,
    K: Sink,
>(
    alloc: Global,
    model: &M,
    terms: &Terms,
    engine: &mut E,
    cycle: &F,
    most: u32,
    sink: &mut K,
) -> Result<(), Unfinished>
    requires meaning { E.meaning engine.old ≡ M.meaning model.now }
    requires terms { E.terms engine.old ≡ terms.now }
    requires begins { (from : State) × BeginsAt (M.meaning model.now) terms.now E.stands_at engine.old from }
    requires may { (e : _) (at : Standing) (k : _) → E.stands_at e.now at → ended (E.meaning e.now) (E.terms e.now) at ≡ None
        → (from : State) × BeginsAt (M.meaning model.now) terms.now E.stands_at engine.old from
        × HasToldFirst (M.meaning model.now) terms.now from (K.told sink.old) (K.told k.now) at
        → F.pre cycle.now e alloc k }
    requires does { (e : _) (k : _) (r : _) (f : _) → F.post cycle.now e alloc k r f → DoesCycles E.meaning E.terms E.stands_at e.now r f.now }
    ensures written { (from : State) → BeginsAt (M.meaning model.now) terms.now E.stands_at engine.old from
        → HasWritten K.Sink sink.old sink.new result (first_lines (M.meaning model.now) terms.now most from) }
    ensures state { (from : State) → BeginsAt (M.meaning model.now) terms.now E.stands_at engine.old from
        → OnOk result (StandsAtState E.stands_at engine.new (cycles_for most (M.meaning model.now) terms.now from).last) }
    ensures meaning { OnOk result (E.meaning engine.new ≡ M.meaning model.now) }
    ensures terms { OnOk result (E.terms engine.new ≡ terms.now) }
{
    law_next(model, terms);
    law_bucket(model, terms);
    let mut lines = LineWriter::new(alloc)?;
    let mut text = Vec::new(alloc);
    for done in 0..most {
        if engine.ended().is_some() {
            return Ok(());
        }
        text.clear();
        let bucket = cycle(engine, alloc, &*sink)?;
        put_records(&mut lines, alloc, model, bucket.done.as_buffer(), &mut text)?;
        write_all(sink, text.as_slice())?;
        engine.give_back(bucket.done);
    }
    Ok(())
}
