//! A whole simulation of a model.
ghost use Rattle.std.specs.Prelude.{◌≡◌, ◌≤◌, [], IfOk, None, false};
ghost use Rattle.std.specs.Arc.{arc_value};
ghost use Rattle.std.specs.Thread.{IsSend, IsSync};
ghost use Rattle.sim_spec.specs.Standing.{ended, stands};
ghost use Rattle.sim_spec.specs.State.{State, Lawful, initial_state};
ghost use Rattle.run_tally.specs.Tallies.{TotalsOf};
ghost use Rattle.sim_text.specs.declared.telling.Telling.TheVariants.{Lines};
ghost use Rattle.sim_text.specs.Rest.{BeginsAt, CanBeTold};
ghost use Rattle.sim_text.specs.Written.{HasSimulated};
ghost use Rattle.cycle_core.specs.Standings.{GoesOn};
ghost use Rattle.node_team.specs.Handings.{AreWorkers};
ghost use Rattle.model_program.specs.Handed.{HandsOn};
ghost use Rattle.model_program.specs.Machines.{IsMachine, IsSpread, IsSpreadAs};
ghost use Rattle.model_program.specs.RunStandings.{OneCycles, OneStandsAt, OneWrites, TeamCycles, TeamStandsAt};

use crate::run::begun::Begun;
use crate::run::handing::hand_on;
use crate::run::job::Job;
use crate::run::machine::{Machine, Spread};
use crate::run::one_thread_run::OneThreadRun;
use crate::run::stage::Stage;
use crate::run::team_run::TeamRun;
use model_core::OutOfMemory;
use model_core::model::Model;
use node_team::Gate;
use run_tally::Tally;
use sim_io::Sink;
use sim_spec::laws::law_initial;
use sim_spec::{Bucket, Stop, Terms};
use sim_text::{LineBuffer, Telling, Unfinished, simulate, simulate_lines};
use std::alloc::Global;
use std::sync::Arc;
use std::thread::Threads;

/// A simulation at its start on one thread, and its model, which names what the simulation tells.
fn one_thread<M: Model>(
    alloc: Global,
    model: M,
    terms: Terms,
) -> Result<Begun<M, OneThreadRun<M>>, OutOfMemory>
    ensures named { IfOk result (λ begun. arc_value begun.model ≡ model) }
    ensures model { IfOk result (λ begun. begun.run.engine.model ≡ model) }
    ensures terms { IfOk result (λ begun. begun.run.engine.terms ≡ terms) }
    ensures begins { IfOk result (λ begun. OneStandsAt M.meaning begun.run (stands (initial_state (M.meaning model)) None)) }
{
    let model = Arc::new(alloc, model)?;
    let run = OneThreadRun::new(alloc, model.clone()?, terms)?;
    Ok(Begun { model, run })
}

/// The same on nodes.
pub(crate) fn on_nodes<M: Model>(
    alloc: Global,
    model: M,
    terms: Terms,
    spread: Spread,
) -> Result<Begun<M, TeamRun<M>>, OutOfMemory>
    requires { IsSpread spread }
    ensures lawful { Lawful (M.meaning model) terms (initial_state (M.meaning model)) }
    ensures named { IfOk result (λ begun. arc_value begun.model ≡ model) }
    ensures model { IfOk result (λ begun. begun.run.team.world.model ≡ model) }
    ensures terms { IfOk result (λ begun. begun.run.team.world.terms ≡ terms) }
    ensures spread { IfOk result (λ begun. IsSpreadAs begun.run spread) }
    ensures begins { IfOk result (λ begun. TeamStandsAt M.meaning begun.run (stands (initial_state (M.meaning model)) None)) }
{
    law_initial(&model, &terms);
    let model = Arc::new(alloc, model)?;
    let run = TeamRun::new(alloc, model.clone()?, terms, spread)?;
    Ok(Begun { model, run })
}

/// Writes the lines of the events of a run at the start of a model, stretch by stretch.
fn tell_lines<M: Model, K: Sink>(
    alloc: Global,
    model: &M,
    terms: &Terms,
    run: &mut OneThreadRun<M>,
    out: &mut K,
) -> Result<Stop, Unfinished>
    requires model { run.old.engine.model ≡ model.now }
    requires terms { run.old.engine.terms ≡ terms.now }
    requires begins { BeginsAt (M.meaning model.now) terms.now (OneStandsAt M.meaning) run.old (initial_state (M.meaning model.now)) }
    ensures { (totals : TotalsOf) → HasSimulated K.Sink out.old out.new result (M.meaning model.now) terms.now totals (Lines false)
        (initial_state (M.meaning model.now)) }
{
    let stretch = |run: &mut OneThreadRun<M>, alloc: Global, _out: &K, lines: &mut LineBuffer|
        requires { IsSend M.row × IsSync M.row
            × (ended (M.meaning run.old.engine.model) run.old.engine.terms run.old.engine.standing ≡ None) × (lines.old ≡ []) }
        ensures { OneWrites M.meaning run.old result run.new lines.new }
    { run.write_stretch(alloc, lines) };
    simulate_lines(alloc, model, terms, run, &stretch, out)
}

/// Runs the engine for one thread from the start of a model, and writes what is to be told of that.
fn tell_one_thread<M: Model, L: Tally<M>, K: Sink>(
    alloc: Global,
    model: &M,
    terms: &Terms,
    run: &mut OneThreadRun<M>,
    telling: Telling,
    out: &mut K,
) -> Result<Stop, Unfinished>
    requires model { run.old.engine.model ≡ model.now }
    requires terms { run.old.engine.terms ≡ terms.now }
    requires begins { OneStandsAt M.meaning run.old (stands (initial_state (M.meaning model.now)) None) }
    ensures { HasSimulated K.Sink out.old out.new result (M.meaning model.now) terms.now (L.lines model.now terms.now) telling
        (initial_state (M.meaning model.now)) }
{
    law_initial(model, terms);
    if let Telling::Lines { cycles: false } = telling {
        return tell_lines(alloc, model, terms, run, out);
    }
    let cycle = |run: &mut OneThreadRun<M>, alloc: Global, _out: &K| -> Result<Bucket, OutOfMemory>
        requires { IsSend M.row × IsSync M.row
            × (ended (M.meaning run.old.engine.model) run.old.engine.terms run.old.engine.standing ≡ None) }
        ensures { OneCycles M.meaning run.old result run.new }
    { run.cycle(alloc) };
    simulate::<M, L, _, _, K>(alloc, model, terms, run, &cycle, telling, out)
}

/// Runs a model on one thread, and writes what is to be told of its simulation.
fn run_one_thread<M: Model, L: Tally<M>, K: Sink>(
    alloc: Global,
    model: M,
    terms: Terms,
    telling: Telling,
    out: &mut K,
) -> Result<Stop, Unfinished>
    ensures { HasSimulated K.Sink out.old out.new result (M.meaning model) terms (L.lines model terms) telling (initial_state (M.meaning model)) }
{
    let mut begun = one_thread(alloc, model, terms)?;
    tell_one_thread::<M, L, K>(alloc, &*begun.model, &terms, &mut begun.run, telling, out)
}

/// Runs nodes that advance in threads from where they stand, and writes what is to be told of that.
pub(crate) fn tell_nodes<R: Threads + Sync, G: Gate, M: Model, L: Tally<M>, K: Sink>(
    stage: Stage<R, G>,
    model: &M,
    terms: &Terms,
    run: &mut TeamRun<M>,
    telling: Telling,
    out: &mut K,
) -> Result<Stop, Unfinished>
    requires model { run.old.team.world.model ≡ model.now }
    requires terms { run.old.team.world.terms ≡ terms.now }
    requires begins { (from : State) × BeginsAt (M.meaning model.now) terms.now (TeamStandsAt M.meaning) run.old from
        × CanBeTold (M.meaning model.now) telling from }
    ensures { (from : State) → BeginsAt (M.meaning model.now) terms.now (TeamStandsAt M.meaning) run.old from
        → CanBeTold (M.meaning model.now) telling from
        → HasSimulated K.Sink out.old out.new result (M.meaning model.now) terms.now (L.lines model.now terms.now) telling from }
{
    let Stage { rt, alloc, gate } = stage;
    let cycle = |run: &mut TeamRun<M>, alloc: Global, _out: &K| -> Result<Bucket, OutOfMemory>
        requires { IsSync R.row × IsSync G.row × IsSend M.row × IsSync M.row × AreWorkers run.old.workers × GoesOn M.meaning run.old.team.world }
        ensures { TeamCycles M.meaning run.old result run.new }
    { run.cycle(rt, alloc, gate) };
    simulate::<M, L, _, _, K>(alloc, model, terms, run, &cycle, telling, out)
}

/// Runs a model on nodes that advance in threads, and writes what is to be told of its simulation.
fn run_on_nodes<R: Threads + Sync, G: Gate, M: Model, L: Tally<M>, K: Sink>(
    stage: Stage<R, G>,
    model: M,
    terms: Terms,
    spread: Spread,
    telling: Telling,
    out: &mut K,
) -> Result<Stop, Unfinished>
    requires { IsSpread spread }
    ensures { HasSimulated K.Sink out.old out.new result (M.meaning model) terms (L.lines model terms) telling (initial_state (M.meaning model)) }
{
    let mut begun = on_nodes(stage.alloc, model, terms, spread)?;
    tell_nodes::<R, G, M, L, K>(stage, &*begun.model, &terms, &mut begun.run, telling, out)
}

/// Runs a model from its start, writes what is to be told of its simulation, and hands it on. The text is the same whatever
/// the machine, the nodes, their placement, how far they work ahead, the workers, who steals what, which objects move, and
/// the schedule of threads. Its totals are what the tally `L` says.
pub fn run_model<R: Threads + Sync, G: Gate, M: Model, L: Tally<M>, K: Sink>(
    stage: Stage<R, G>,
    job: Job<M>,
    out: &mut K,
) -> Result<Stop, Unfinished>
    requires { IsMachine job.machine }
    ensures simulated { HasSimulated K.Sink out.old out.new result (M.meaning job.model) job.terms (L.lines job.model job.terms) job.telling
        (initial_state (M.meaning job.model)) }
    ensures handed { HandsOn K.Sink out.new result }
{
    let Job {
        model,
        terms,
        machine,
        telling,
    } = job;
    match machine {
        Machine::OneThread => {
            let outcome = run_one_thread::<M, L, K>(stage.alloc, model, terms, telling, out);
            hand_on(outcome, out)
        }
        Machine::Nodes(spread) => {
            let outcome = run_on_nodes::<R, G, M, L, K>(stage, model, terms, spread, telling, out);
            hand_on(outcome, out)
        }
    }
}
