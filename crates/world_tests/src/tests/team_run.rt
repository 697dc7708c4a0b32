//! A team over any lanes, driven cycle by cycle.
ghost use Rattle.std.specs.Prelude.{◌≡◌, ◌≤◌};
ghost use Rattle.model_core.specs.declared.limits.TheConstants.{MOST_NODES};

use cycle_core::World;
use model_core::OutOfMemory;
use model_core::model::Model as SimulationModel;
use node_team::{Gate, Team};
use release_lanes::{Lanes, RingLanes};
use sim_spec::{Bucket, Placement, Terms};
use std::alloc::Global;
use std::marker::Model;
use std::sync::Arc;
use std::test::Fail;
use std::thread::Threads;

/// A simulation on the nodes of a team, from its start on.
#[derive(Drop)]
pub struct TeamRun<M: SimulationModel, L: Lanes> {
    team: Team<M, L>,
}

impl<M: SimulationModel, L: Lanes> Model for TeamRun<M, L> {
    ghost use Rattle.sim_spec.specs.Standing.{Standing};
    ghost use Rattle.cycle_core.specs.Standings.{WorldStandsAt};
    ghost use Rattle.node_team.specs.Teams.{TeamView};

    ghost Value = { TeamView M };

    ghost view = { λ run. run.team };

    ghost invariant = { λ run. (at : Standing) × WorldStandsAt M.meaning run.team.world at };
}

impl<M: SimulationModel, L: Lanes + Drop> TeamRun<M, L> {
    /// The simulation at its start, on so many nodes that run so far ahead.
    pub fn new(
        alloc: Global,
        model: Arc<M>,
        terms: Terms,
        nodes: u32,
        ahead: u32,
        lanes: L,
    ) -> Result<TeamRun<M, L>, OutOfMemory>
        requires low { 1 ≤ nodes }
        requires high { nodes ≤ MOST_NODES }
        requires wide { L.nodes lanes ≡ nodes }
        requires rest { L.are_at_rest lanes }
    {
        let world = World::begin(alloc, model, terms, nodes, Placement::Round)?;
        Ok(TeamRun {
            team: Team::new(alloc, world, lanes, ahead)?,
        })
    }

    /// How many events are done.
    pub fn count(&self) -> u64 {
        self.team.count()
    }

    /// One cycle, of which a gate is told, unless the simulation has ended.
    pub fn next<R: Threads + Sync, G: Gate>(
        &mut self,
        rt: &R,
        alloc: Global,
        gate: &G,
    ) -> Result<Option<Bucket>, OutOfMemory> {
        match self.team.ended() {
            Some(_) => Ok(None),
            None => Ok(Some(self.team.cycle(rt, alloc, gate)?)),
        }
    }

    /// So many cycles, before whose end the simulation doesn't end.
    pub fn cycles<R: Threads + Sync, G: Gate>(
        &mut self,
        rt: &R,
        alloc: Global,
        gate: &G,
        count: u32,
    ) -> Result<(), Fail> {
        for _ in 0..count {
            if self.next(rt, alloc, gate)?.is_none() {
                return Err(Fail::from("the simulation has ended"));
            }
        }
        Ok(())
    }

    /// Whether the next cycle is refused.
    pub fn refuses<R: Threads + Sync, G: Gate>(&mut self, rt: &R, alloc: Global, gate: &G) -> bool {
        self.next(rt, alloc, gate).is_err()
    }

    /// The same as the next cycle, but two workers steal the nodes' turns from each other.
    pub fn next_by_two<R: Threads + Sync, G: Gate>(
        &mut self,
        rt: &R,
        alloc: Global,
        gate: &G,
    ) -> Result<Option<Bucket>, OutOfMemory> {
        match self.team.ended() {
            Some(_) => Ok(None),
            None => Ok(Some(self.team.cycle_by(rt, alloc, 2, gate)?)),
        }
    }

    /// So many cycles by two workers.
    pub fn cycles_by_two<R: Threads + Sync, G: Gate>(
        &mut self,
        rt: &R,
        alloc: Global,
        gate: &G,
        count: u32,
    ) -> Result<(), Fail> {
        for _ in 0..count {
            if self.next_by_two(rt, alloc, gate)?.is_none() {
                return Err(Fail::from("the simulation has ended"));
            }
        }
        Ok(())
    }
}

/// A simulation at its start, on so many nodes that run so far ahead and have rings between them.
pub fn by_rings<M: SimulationModel>(
    alloc: Global,
    model: Arc<M>,
    terms: Terms,
    nodes: u32,
    ahead: u32,
) -> Result<TeamRun<M, RingLanes>, OutOfMemory>
    requires low { 1 ≤ nodes }
    requires high { nodes ≤ MOST_NODES }
{
    let lanes = RingLanes::new(alloc, nodes)?;
    TeamRun::new(alloc, model, terms, nodes, ahead, lanes)
}
