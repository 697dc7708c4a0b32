//! A world, as an engine.
ghost use Rattle.std.specs.Prelude.{◌≡◌, ◌≤◌, None, IfOk};
ghost use Rattle.std.specs.Arc.{arc_value};
ghost use Rattle.model_core.specs.declared.limits.TheConstants.{MOST_NODES};
ghost use Rattle.sim_spec.specs.Standing.{Standing, stands, ended, IsCountAt};
ghost use Rattle.sim_spec.specs.State.{initial_state};
ghost use Rattle.model_text.specs.Meanings.{meaning_of};
ghost use Rattle.cycle_core.specs.Standings.{WorldStandsAt, GoesOn, HasCycled};

use cycle_core::{Cut, World};
use model_core::model::Model as SimulationModel;
use model_core::{OutOfMemory, Records};
use model_text::AnyModel;
use node_core::{Node, Tallies};
use run_tally::NoTally;
use sim_io::MemSink;
use sim_spec::laws::law_initial;
use sim_spec::{Bucket, Engine, Placement, Stop, Terms};
use sim_text::{Telling, Unfinished, simulate};
use std::alloc::Global;
use std::marker::Model;
use std::sync::Arc;
use std::test::Fail;

/// A simulation on the nodes of a world, by one thread.
#[derive(Drop)]
pub struct WorldRun<M: SimulationModel> {
    world: World<M>,
}

impl<M: SimulationModel> Model for WorldRun<M> {
    ghost use Rattle.sim_spec.specs.Standing.{Standing};
    ghost use Rattle.cycle_core.specs.Worlds.{WorldView};
    ghost use Rattle.cycle_core.specs.Standings.{WorldStandsAt};

    ghost Value = { WorldView M };

    ghost view = { λ run. run.world };

    ghost invariant = { λ run. (at : Standing) × WorldStandsAt M.meaning run.world at };
}

/// What each of these nodes counts.
fn tallies_of<M: SimulationModel>(
    alloc: Global,
    nodes: &[Node<M>],
) -> Result<Vec<Tallies>, OutOfMemory> {
    let mut all = Vec::new(alloc);
    for node in nodes {
        all.push(node.tallies())?;
    }
    Ok(all)
}

impl<M: SimulationModel> WorldRun<M> {
    /// The simulation at its start.
    pub fn new(
        alloc: Global,
        model: Arc<M>,
        terms: Terms,
        nodes: u32,
        placement: Placement,
    ) -> Result<WorldRun<M>, OutOfMemory>
        requires low { 1 ≤ nodes }
        requires high { nodes ≤ MOST_NODES }
        ensures model { IfOk result (λ run. run.model ≡ arc_value model) }
        ensures terms { IfOk result (λ run. run.terms ≡ terms) }
        ensures begins { IfOk result (λ run. WorldStandsAt M.meaning run (stands (initial_state (M.meaning (arc_value model))) None)) }
    {
        let world = World::begin(alloc, model, terms, nodes, placement)?;
        Ok(WorldRun { world })
    }

    /// Why no cycle comes any more, where none does.
    pub fn ended(&self) -> Option<Stop>
        ensures { (at : Standing) → WorldStandsAt M.meaning self.now at → result ≡ ended (M.meaning self.now.model) self.now.terms at }
    {
        self.world.ended()
    }

    /// How many events are done.
    pub fn count(&self) -> u64
        ensures { (at : Standing) → WorldStandsAt M.meaning self.now at → IsCountAt at result }
    {
        self.world.count()
    }

    /// One cycle.
    pub fn cycle(&mut self, alloc: Global) -> Result<Bucket, OutOfMemory>
        requires { GoesOn M.meaning self.old }
        ensures { HasCycled M.meaning self.old result self.new }
    {
        self.world.cycle_alone(alloc)
    }

    /// One cycle, unless the simulation has ended.
    pub fn next(&mut self, alloc: Global) -> Result<Option<Bucket>, OutOfMemory> {
        match self.world.ended() {
            Some(_) => Ok(None),
            None => Ok(Some(self.cycle(alloc)?)),
        }
    }

    /// So many cycles, before whose end the simulation doesn't end.
    pub fn cycles(&mut self, alloc: Global, count: u32) -> Result<(), Fail> {
        for _ in 0..count {
            if self.next(alloc)?.is_none() {
                return Err(Fail::from("the simulation has ended"));
            }
        }
        Ok(())
    }

    /// Whether the next cycle is refused.
    pub fn refuses(&mut self, alloc: Global) -> bool {
        self.next(alloc).is_err()
    }

    /// What each node counts, or nothing of a world that is spent.
    pub fn tallies(&mut self, alloc: Global) -> Result<Vec<Tallies>, OutOfMemory> {
        if self.world.is_spent() {
            return Ok(Vec::new(alloc));
        }
        let nodes = self.world.take_nodes();
        let tallies = tallies_of(alloc, nodes.as_slice());
        self.world.put_nodes(nodes);
        tallies
    }

    /// Closes a cycle, and tells where it is cut.
    pub fn cut(&mut self, alloc: Global) -> Result<Cut, OutOfMemory> {
        if self.world.is_spent() {
            return Err(OutOfMemory);
        }
        let bound = self.world.close_cycle(alloc)?;
        self.world.commit_cut(alloc, bound)
    }

    /// Spends the world.
    pub fn spend(&mut self) {
        self.world.spend();
    }

    /// Whether the world is spent.
    pub fn is_spent(&self) -> bool {
        self.world.is_spent()
    }
}

/// A simulation of a model of any kind.
#[derive(Drop)]
pub struct AnyRun {
    pub run: WorldRun<AnyModel>,
}

impl Engine for AnyRun {
    ghost use Rattle.model_text.specs.Meanings.{meaning_of};
    ghost use Rattle.cycle_core.specs.Standings.{WorldStandsAt};

    ghost meaning = { λ any. meaning_of any.run.model };

    ghost terms = { λ any. any.run.terms };

    ghost stands_at = { λ any. WorldStandsAt meaning_of any.run };

    fn ended(&self) -> Option<Stop> {
        self.run.ended()
    }

    fn count(&self) -> u64 {
        self.run.count()
    }

    fn give_back(&mut self, records: Records) {
        let _ = records;
    }
}

/// A simulation at its start, and its model, which names what the simulation tells.
fn run_of(
    alloc: Global,
    model: AnyModel,
    terms: Terms,
    nodes: u32,
    placement: Placement,
) -> Result<(Arc<AnyModel>, AnyRun), OutOfMemory>
    requires low { 1 ≤ nodes }
    requires high { nodes ≤ MOST_NODES }
    ensures named { IfOk result (λ both. arc_value both.0 ≡ model) }
    ensures model { IfOk result (λ both. both.1.run.model ≡ model) }
    ensures terms { IfOk result (λ both. both.1.run.terms ≡ terms) }
    ensures begins { IfOk result (λ both. WorldStandsAt meaning_of both.1.run (stands (initial_state (meaning_of model)) None)) }
{
    let model = Arc::new(alloc, model)?;
    let run = WorldRun::new(alloc, model.clone()?, terms, nodes, placement)?;
    Ok((model, AnyRun { run }))
}

/// Runs a model on so many nodes, and writes the text of its simulation.
pub fn run_world(
    alloc: Global,
    model: AnyModel,
    terms: Terms,
    nodes: u32,
    placement: Placement,
    cycles: bool,
    out: &mut MemSink,
) -> Result<Stop, Unfinished>
    requires low { 1 ≤ nodes }
    requires high { nodes ≤ MOST_NODES }
{
    let (model, mut run) = run_of(alloc, model, terms, nodes, placement)?;
    law_initial(&*model, &terms);
    let cycle = |any: &mut AnyRun, alloc: Global, _out: &MemSink| -> Result<Bucket, OutOfMemory>
        requires { GoesOn meaning_of any.old.run }
        ensures { HasCycled meaning_of any.old.run result any.new.run }
    { any.run.cycle(alloc) };
    simulate::<AnyModel, NoTally, _, _, MemSink>(
        alloc,
        &*model,
        &terms,
        &mut run,
        &cycle,
        Telling::Lines { cycles },
        out,
    )
}
