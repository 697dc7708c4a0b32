//! One replication.
ghost use Rattle.std.specs.Prelude.{◌≡◌, ◌++◌, [], ℕ, IfOk, OnOk, None};
ghost use Rattle.std.specs.Arc.{arc_value};
ghost use Rattle.sim_spec.specs.Standing.{stands};
ghost use Rattle.sim_spec.specs.State.{initial_state};
ghost use Rattle.replications.specs.Ends.{end_of, rows_of_run, run_from_start};

use crate::rows::RunEnd;
use crate::run_rows::{Rows, add_all};
use model_core::OutOfMemory;
use model_core::model::Model as SimulationModel;
use one_thread::OneThread;
use run_laws::laws::{law_order, law_reached};
use sim_spec::laws::{law_bucket, law_initial, law_moves, law_next};
use sim_spec::{Stop, Terms};
use std::alloc::Global;
use std::sync::Arc;

/// A replication: how far its run goes, the first tick of its window, and its seed.
#[derive(Clone, Copy)]
struct Replication {
    terms: Terms,
    first_tick: u64,
    seed: u64,
}

/// Runs an engine from its start until it has ended, and sums up all records. No bucket is kept.
fn run_to_stop<M: SimulationModel, W: Rows<M>>(
    alloc: Global,
    model: &M,
    replication: &Replication,
    engine: &mut OneThread<M>,
    rows: &mut W,
) -> Result<RunEnd, OutOfMemory>
    requires model { engine.old.model ≡ model.now }
    requires terms { engine.old.terms ≡ replication.now.terms }
    requires begins { engine.old.standing ≡ stands (initial_state (M.meaning model.now)) None }
    requires rows { (first_tick : ℕ) × W.sums_up model.now first_tick rows.old [] }
    ensures rows { OnOk result ((first_tick : ℕ) → W.sums_up model.now first_tick rows.old []
        → W.sums_up model.now first_tick rows.new (run_from_start (M.meaning model.now) replication.now.terms).records) }
    ensures end { IfOk result (λ end. end ≡ end_of replication.now.seed (run_from_start (M.meaning model.now) replication.now.terms)) }
{
    let terms = &replication.terms;
    law_initial(model, terms);
    law_next(model, terms);
    law_bucket(model, terms);
    law_moves(model, terms);
    law_reached(model, terms);
    law_order(model, terms);
    let mut cycles = 0u64;
    loop {
        if let Some(stop) = engine.ended() {
            let events = engine.count();
            let seed = replication.seed;
            return Ok(RunEnd { seed, events, stop });
        }
        let bucket = engine.bucket(alloc)?;
        add_all(rows, model, bucket.done.as_buffer());
        engine.give_back(bucket.done);
        cycles += 1;
    }
}

/// Runs an engine from its start until it has ended, and appends the rows of its run.
#[tactic(auto, unfolding(crate::specs::Ends::rows_of_run))]
fn put_run<M: SimulationModel, W: Rows<M>>(
    alloc: Global,
    model: &M,
    replication: &Replication,
    engine: &mut OneThread<M>,
    into: &mut Vec<u8>,
) -> Result<Stop, OutOfMemory>
    requires model { engine.old.model ≡ model.now }
    requires terms { engine.old.terms ≡ replication.now.terms }
    requires begins { engine.old.standing ≡ stands (initial_state (M.meaning model.now)) None }
    ensures rows { OnOk result (into.new.items ≡ into.old.items
        ++ rows_of_run (W.rows_of model.now) (M.meaning model.now) replication.now.terms replication.now.first_tick replication.now.seed) }
    ensures stop { IfOk result (λ stop. stop ≡ (run_from_start (M.meaning model.now) replication.now.terms).stop) }
{
    let mut rows = W::new(alloc, model, replication.first_tick)?;
    let end = run_to_stop(alloc, model, replication, engine, &mut rows)?;
    rows.put(alloc, model, &replication.terms, &end, into)?;
    Ok(end.stop)
}

/// Runs a model from its start on the engine for one thread, and appends its rows: what was done from tick `first_tick` to the end
/// of the run, under this seed. Where memory runs out, it may have appended some of them.
pub fn replicate_once<M: SimulationModel, W: Rows<M>>(
    alloc: Global,
    model: Arc<M>,
    terms: Terms,
    first_tick: u64,
    seed: u64,
    into: &mut Vec<u8>,
) -> Result<Stop, OutOfMemory>
    ensures rows { let own = arc_value model in
        OnOk result (into.new.items ≡ into.old.items ++ rows_of_run (W.rows_of own) (M.meaning own) terms first_tick seed) }
    ensures stop { IfOk result (λ stop. stop ≡ (run_from_start (M.meaning (arc_value model)) terms).stop) }
{
    let mut engine = OneThread::new(alloc, model.clone()?, terms)?;
    let replication = Replication {
        terms,
        first_tick,
        seed,
    };
    put_run::<M, W>(alloc, &*model, &replication, &mut engine, into)
}
