//! A whole simulation whose engine writes the lines of its own events.
ghost use Rattle.std.specs.Prelude.{◌≡◌, [], None, false};
ghost use Rattle.run_tally.specs.Tallies.{TotalsOf};
ghost use Rattle.sim_spec.specs.State.{State};
ghost use Rattle.sim_spec.specs.Standing.{Standing, ended};
ghost use Rattle.sim_text.specs.declared.telling.Telling.TheVariants.{Lines};
ghost use Rattle.sim_text.specs.LineStretches.{HasToldEvents, WritesStretch};
ghost use Rattle.sim_text.specs.Rest.{BeginsAt};
ghost use Rattle.sim_text.specs.Written.{HasSimulated};

use crate::line_buffer::LineBuffer;
use crate::unfinished::Unfinished;
use model_core::OutOfMemory;
use model_core::model::{Model, keeps_laws};
use sim_io::laws::law_plain_text;
use sim_io::{Sink, write_all};
use sim_spec::{Engine, Stop, Terms};
use std::alloc::Global;

/// Runs an engine from a state of its model until it has ended, and writes the text of the simulation, as `simulate` does
/// where lines are told and no cycles. That text is the run's, event by event, so the engine goes on by stretches of it, whatever
/// buckets they are of, and appends the lines of their events. Those of a stretch are written after it, before the next one
/// begins.
pub fn simulate_lines<
    M: Model,
    E: Engine,
    F: Fn(&mut E, Global, &K, &mut LineBuffer) -> Result<(), OutOfMemory>,
    K: Sink,
>(
    alloc: Global,
    model: &M,
    terms: &Terms,
    engine: &mut E,
    stretch: &F,
    sink: &mut K,
) -> Result<Stop, Unfinished>
    requires meaning { E.meaning engine.old ≡ M.meaning model.now }
    requires terms { E.terms engine.old ≡ terms.now }
    requires begins { (from : State) × BeginsAt (M.meaning model.now) terms.now E.stands_at engine.old from }
    requires may { (e : _) (at : Standing) (k : _) (lines : _) → E.stands_at e.now at → ended (E.meaning e.now) (E.terms e.now) at ≡ None → lines.now ≡ []
        → (from : State) × BeginsAt (M.meaning model.now) terms.now E.stands_at engine.old from
        × HasToldEvents (M.meaning model.now) terms.now from (K.told sink.old) (K.told k.now) at
        → F.pre stretch.now e alloc k lines }
    requires does { (e : _) (k : _) (lines : _) (r : _) (f : _) (after : _) → F.post stretch.now e alloc k lines r f after → lines.now ≡ []
        → WritesStretch E.meaning E.terms E.stands_at e.now r f.now after.now }
    ensures { (from : State) (totals : TotalsOf) → BeginsAt (M.meaning model.now) terms.now E.stands_at engine.old from
        → HasSimulated K.Sink sink.old sink.new result (M.meaning model.now) terms.now totals (Lines false) from }
{
    keeps_laws(model);
    law_plain_text(model, terms);
    let mut lines = LineBuffer::new(alloc)?;
    // of the next stretch; there are few more than events, so the loop ends
    let mut number: u64 = 1;
    loop {
        lines.clear();
        if let Some(stop) = engine.ended() {
            let count = engine.count();
            lines.put_stop(alloc, model, terms, count, &stop)?;
            write_all(sink, lines.as_slice())?;
            return Ok(stop);
        }
        stretch(engine, alloc, &*sink, &mut lines)?;
        write_all(sink, lines.as_slice())?;
        number += 1;
    }
}
