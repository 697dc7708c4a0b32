//! A simulation that is saved after its first cycles, and goes on from there.
ghost use Rattle.std.specs.Prelude.{◌≡◌, ◌≤◌, IfOk, None, false};
ghost use Rattle.std.specs.Arc.{arc_value};
ghost use Rattle.std.specs.Thread.{IsSend, IsSync};
ghost use Rattle.sim_spec.specs.Standing.{stands};
ghost use Rattle.sim_spec.specs.State.{Lawful, initial_state};
ghost use Rattle.run_tally.specs.Tallies.{no_totals};
ghost use Rattle.sim_text.specs.Written.{HasSimulated};
ghost use Rattle.sim_text.specs.declared.telling.Telling.TheVariants.{Lines};
ghost use Rattle.cycle_core.specs.Standings.{GoesOn};
ghost use Rattle.node_team.specs.Handings.{AreWorkers};
ghost use Rattle.model_program.specs.Handed.{HandsOn};
ghost use Rattle.model_program.specs.Machines.{IsSpread, IsSpreadAs};
ghost use Rattle.model_program.specs.RunStandings.{TeamCycles, TeamStandsAt};
ghost use Rattle.model_program.specs.Saved.{HasSaved};

use crate::run::begun::Begun;
use crate::run::handing::hand_on;
use crate::run::machine::Spread;
use crate::run::running::{on_nodes, tell_nodes};
use crate::run::stage::Stage;
use crate::run::team_run::TeamRun;
use model_core::OutOfMemory;
use model_core::model::Model;
use node_team::Gate;
use run_tally::NoTally;
use sim_io::Sink;
use sim_spec::laws::law_initial;
use sim_spec::{Bucket, State, Stop, Terms};
use sim_text::{Telling, Unfinished, simulate_first};
use std::alloc::Global;
use std::sync::Arc;
use std::thread::Threads;

/// A simulation at a state, and its model.
fn at_state<M: Model>(
    alloc: Global,
    model: M,
    terms: Terms,
    spread: Spread,
    state: State,
) -> Result<Begun<M, TeamRun<M>>, OutOfMemory>
    requires spread { IsSpread spread }
    requires lawful { Lawful (M.meaning model) terms state }
    ensures named { IfOk result (λ begun. arc_value begun.model ≡ model) }
    ensures model { IfOk result (λ begun. begun.run.team.world.model ≡ model) }
    ensures terms { IfOk result (λ begun. begun.run.team.world.terms ≡ terms) }
    ensures spread { IfOk result (λ begun. IsSpreadAs begun.run spread) }
    ensures begins { IfOk result (λ begun. TeamStandsAt M.meaning begun.run (stands state None)) }
{
    let model = Arc::new(alloc, model)?;
    let run = TeamRun::from_state(alloc, model.clone()?, terms, spread, state)?;
    Ok(Begun { model, run })
}

/// Writes the records of the first cycles of nodes at the start of a model, and answers the state after them.
fn save_first<R: Threads + Sync, G: Gate, M: Model, K: Sink>(
    stage: Stage<R, G>,
    model: &M,
    terms: &Terms,
    run: &mut TeamRun<M>,
    cycles: u32,
    out: &mut K,
) -> Result<State, Unfinished>
    requires model { run.old.team.world.model ≡ model.now }
    requires terms { run.old.team.world.terms ≡ terms.now }
    requires begins { TeamStandsAt M.meaning run.old (stands (initial_state (M.meaning model.now)) None) }
    ensures { HasSaved K.Sink out.old out.new result (M.meaning model.now) terms.now cycles }
{
    let Stage { rt, alloc, gate } = stage;
    law_initial(model, terms);
    let cycle = |run: &mut TeamRun<M>, alloc: Global, _out: &K| -> Result<Bucket, OutOfMemory>
        requires { IsSync R.row × IsSync G.row × IsSend M.row × IsSync M.row × AreWorkers run.old.workers × GoesOn M.meaning run.old.team.world }
        ensures { TeamCycles M.meaning run.old result run.new }
    { run.cycle(rt, alloc, gate) };
    simulate_first(alloc, model, terms, run, &cycle, cycles, out)?;
    Ok(run.team.snapshot(alloc)?)
}

/// Writes the records of the first cycles of a model, and answers the state after them.
fn save_after<R: Threads + Sync, G: Gate, M: Model, K: Sink>(
    stage: Stage<R, G>,
    model: M,
    terms: Terms,
    spread: Spread,
    cycles: u32,
    out: &mut K,
) -> Result<State, Unfinished>
    requires { IsSpread spread }
    ensures { HasSaved K.Sink out.old out.new result (M.meaning model) terms cycles }
{
    let mut begun = on_nodes(stage.alloc, model, terms, spread)?;
    save_first(stage, &*begun.model, &terms, &mut begun.run, cycles, out)
}

/// Runs a model from its start for so many cycles, or until it stops, on nodes, writes their records, and hands them on.
/// It answers the state after them.
pub fn save_model<R: Threads + Sync, G: Gate, M: Model, K: Sink>(
    stage: Stage<R, G>,
    model: M,
    terms: Terms,
    spread: Spread,
    cycles: u32,
    out: &mut K,
) -> Result<State, Unfinished>
    requires { IsSpread spread }
    ensures saved { HasSaved K.Sink out.old out.new result (M.meaning model) terms cycles }
    ensures handed { HandsOn K.Sink out.new result }
{
    let outcome = save_after(stage, model, terms, spread, cycles, out);
    hand_on(outcome, out)
}

/// Runs a model from a state until it stops, and writes its records and why.
fn resume_at<R: Threads + Sync, G: Gate, M: Model, K: Sink>(
    stage: Stage<R, G>,
    model: M,
    terms: Terms,
    spread: Spread,
    state: State,
    out: &mut K,
) -> Result<Stop, Unfinished>
    requires spread { IsSpread spread }
    requires lawful { Lawful (M.meaning model) terms state }
    ensures { HasSimulated K.Sink out.old out.new result (M.meaning model) terms no_totals (Lines false) state }
{
    let mut begun = at_state(stage.alloc, model, terms, spread, state)?;
    let telling = Telling::Lines { cycles: false };
    tell_nodes::<R, G, M, NoTally, K>(stage, &*begun.model, &terms, &mut begun.run, telling, out)
}

/// Runs a model from a state that a simulation of it can meet until it stops, on nodes, writes its records and why, and
/// hands all on.
pub fn resume_model<R: Threads + Sync, G: Gate, M: Model, K: Sink>(
    stage: Stage<R, G>,
    model: M,
    terms: Terms,
    spread: Spread,
    state: State,
    out: &mut K,
) -> Result<Stop, Unfinished>
    requires spread { IsSpread spread }
    requires lawful { Lawful (M.meaning model) terms state }
    ensures simulated { HasSimulated K.Sink out.old out.new result (M.meaning model) terms no_totals (Lines false) state }
    ensures handed { HandsOn K.Sink out.new result }
{
    let outcome = resume_at(stage, model, terms, spread, state, out);
    hand_on(outcome, out)
}
