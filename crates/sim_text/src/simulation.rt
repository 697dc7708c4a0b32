//! A whole simulation, and its text.
ghost use Rattle.std.specs.Prelude.{◌≡◌, None};
ghost use Rattle.sim_spec.specs.State.{State};
ghost use Rattle.sim_spec.specs.Standing.{Standing, ended, DoesCycles};
ghost use Rattle.sim_text.specs.Rest.{BeginsAt, CanBeTold};
ghost use Rattle.sim_text.specs.SoFar.{HasToldSoFar};
ghost use Rattle.sim_text.specs.Written.{HasSimulated};

use crate::report::Report;
use crate::telling::Telling;
use crate::unfinished::Unfinished;
use model_core::OutOfMemory;
use model_core::model::Model;
use run_laws::laws::{law_order, law_reached};
use run_tally::Tally;
use sim_io::{LineWriter, Sink, put_stop, write_all};
use sim_spec::laws::{law_bucket, law_moves, law_next};
use sim_spec::{Bucket, Engine, Stop, Terms};
use std::alloc::Global;

/// Runs an engine from a state of its model until it has ended, and writes the text of the simulation: after each cycle
/// what is told of its bucket at once, and in the end what was kept of all, and why it stopped. A cycle begins only where
/// all that is told at once of those before it was written, so it is given the sink to read. No bucket is kept, and the memory
/// for the text of one serves the next one too. Totals are what a tally says.
pub fn simulate<
    M: Model,
    L: Tally<M>,
    E: Engine,
    F: Fn(&mut E, Global, &K) -> Result<Bucket, OutOfMemory>,
    K: Sink,
>(
    alloc: Global,
    model: &M,
    terms: &Terms,
    engine: &mut E,
    cycle: &F,
    telling: Telling,
    sink: &mut K,
) -> Result<Stop, Unfinished>
    requires meaning { E.meaning engine.old ≡ M.meaning model.now }
    requires terms { E.terms engine.old ≡ terms.now }
    requires begins { (from : State) × BeginsAt (M.meaning model.now) terms.now E.stands_at engine.old from × CanBeTold (M.meaning model.now) telling from }
    requires may { (e : _) (at : Standing) (k : _) → E.stands_at e.now at → ended (E.meaning e.now) (E.terms e.now) at ≡ None
        → (from : State) × BeginsAt (M.meaning model.now) terms.now E.stands_at engine.old from
        × HasToldSoFar (M.meaning model.now) terms.now telling from (K.told sink.old) (K.told k.now) at
        → F.pre cycle.now e alloc k }
    requires does { (e : _) (k : _) (r : _) (f : _) → F.post cycle.now e alloc k r f → DoesCycles E.meaning E.terms E.stands_at e.now r f.now }
    ensures { (from : State) → BeginsAt (M.meaning model.now) terms.now E.stands_at engine.old from → CanBeTold (M.meaning model.now) telling from
        → HasSimulated K.Sink sink.old sink.new result (M.meaning model.now) terms.now (L.lines model.now terms.now) telling from }
{
    law_next(model, terms);
    law_bucket(model, terms);
    law_moves(model, terms);
    law_reached(model, terms);
    law_order(model, terms);
    let mut report: Report<L> = Report::new(alloc, model, telling)?;
    let mut lines = LineWriter::new(alloc)?;
    let mut text = Vec::new(alloc);
    let mut number = 1;
    loop {
        text.clear();
        if let Some(stop) = engine.ended() {
            let count = engine.count();
            report.put(alloc, model, terms, count, &stop, &mut text)?;
            put_stop(alloc, model, terms, count, &stop, &mut text)?;
            write_all(sink, text.as_slice())?;
            return Ok(stop);
        }
        let bucket = cycle(engine, alloc, &*sink)?;
        report.add(&mut lines, alloc, model, number, &bucket, &mut text)?;
        write_all(sink, text.as_slice())?;
        engine.give_back(bucket.done);
        number += 1;
    }
}
