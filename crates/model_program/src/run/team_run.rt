//! The engine on nodes, on any model.
ghost use Rattle.std.specs.Prelude.{◌≡◌, ◌≤◌, ◌+◌, ◌-◌, ◌^◌, min, true, false, IfOk, OnOk, OnErr, None};
ghost use Rattle.std.specs.Arc.{arc_value};
ghost use Rattle.sim_spec.specs.State.{Lawful, initial_state};
ghost use Rattle.sim_spec.specs.Standing.{Standing, stands};
ghost use Rattle.cycle_core.specs.Standings.{GoesOn, HasCycled, WorldStandsAt};
ghost use Rattle.cycle_core.specs.Starts.{ArePlacedBy};
ghost use Rattle.node_team.specs.Handings.{AreWorkers};
ghost use Rattle.model_program.specs.Machines.{IsSpread, IsSpreadAs};
ghost use Rattle.model_program.specs.Plans.{HasMoved};
ghost use Rattle.model_program.specs.RunStandings.{TeamCycles, TeamStandsAt};

use crate::run::machine::Spread;
use crate::run::moving::Moving;
use crate::run::told::Told;
use cycle_core::World;
use model_core::model::Model;
use model_core::{OutOfMemory, Records};
use node_team::{Gate, Team};
use release_lanes::RingLanes;
use sim_spec::{Bucket, Engine, State, Stop, Terms};
use std::alloc::Global;
use std::sync::Arc;
use std::thread::Threads;

/// A simulation of a model, on nodes that advance in threads.
#[derive(Drop)]
pub struct TeamRun<M: Model> {
    pub team: Team<M, RingLanes>,
    pub moving: Moving,
    /// How many workers take turns of nodes and steal them from each other, 1 to 64, where they do.
    pub workers: Option<u32>,
    pub told: Told,
}

impl<M: Model> TeamRun<M> {
    /// The simulation at its start.
    pub fn new(
        alloc: Global,
        model: Arc<M>,
        terms: Terms,
        spread: Spread,
    ) -> Result<TeamRun<M>, OutOfMemory>
        requires { IsSpread spread }
        ensures model { IfOk result (λ run. run.team.world.model ≡ arc_value model) }
        ensures terms { IfOk result (λ run. run.team.world.terms ≡ terms) }
        ensures spread { IfOk result (λ run. IsSpreadAs run spread) }
        ensures begins { IfOk result (λ run. TeamStandsAt M.meaning run (stands (initial_state (M.meaning (arc_value model))) None)) }
    {
        let world = World::begin(alloc, model, terms, spread.nodes, spread.placement)?;
        TeamRun::of(alloc, world, spread)
    }

    /// The simulation at a state.
    pub fn from_state(
        alloc: Global,
        model: Arc<M>,
        terms: Terms,
        spread: Spread,
        state: State,
    ) -> Result<TeamRun<M>, OutOfMemory>
        requires spread { IsSpread spread }
        requires lawful { Lawful (M.meaning (arc_value model)) terms state }
        ensures model { IfOk result (λ run. run.team.world.model ≡ arc_value model) }
        ensures terms { IfOk result (λ run. run.team.world.terms ≡ terms) }
        ensures spread { IfOk result (λ run. IsSpreadAs run spread) }
        ensures begins { IfOk result (λ run. TeamStandsAt M.meaning run (stands state None)) }
    {
        let world = World::from_state(alloc, model, terms, spread.nodes, spread.placement, state)?;
        TeamRun::of(alloc, world, spread)
    }

    /// The simulation of a world.
    fn of(alloc: Global, world: World<M>, spread: Spread) -> Result<TeamRun<M>, OutOfMemory>
        requires nodes { world.homes.nodes ≡ spread.nodes }
        requires placed { ArePlacedBy spread.placement world.homes }
        requires spread { IsSpread spread }
        ensures world { IfOk result (λ run. run.team.world ≡ world) }
        ensures spread { IfOk result (λ run. IsSpreadAs run spread) }
        ensures told { IfOk result (λ run. (at : Standing) → WorldStandsAt M.meaning world at → TeamStandsAt M.meaning run at) }
    {
        let lanes = RingLanes::new(alloc, spread.nodes)?;
        let team = Team::new(alloc, world, lanes, spread.ahead)?;
        let told = Told::new(team.ended(), team.count());
        Ok(TeamRun {
            team,
            moving: Moving::new(spread.moves),
            workers: spread.workers,
            told,
        })
    }

    /// Makes the moves that come before the next cycle, where there is one. After a refusal the world is spent.
    fn make_moves(&mut self, alloc: Global) -> Result<(), OutOfMemory>
        requires { GoesOn M.meaning self.old.team.world }
        ensures at { OnOk result ((at : Standing) → WorldStandsAt M.meaning self.old.team.world at → WorldStandsAt M.meaning self.new.team.world at) }
        ensures moved { OnOk result (self.old.team.world.is_spent ≡ false
            → HasMoved self.old.moving.moves self.old.moving.cycles self.old.team.world self.new.team.world) }
        ensures moving { self.new.moving ≡ self.old.moving }
        ensures workers { self.new.workers ≡ self.old.workers }
        ensures spent { OnErr result (self.new.team.world.is_spent ≡ true) }
        ensures model { self.new.team.world.model ≡ self.old.team.world.model }
        ensures terms { self.new.team.world.terms ≡ self.old.team.world.terms }
    {
        if self.team.world().is_spent() {
            return Ok(());
        }
        match self.moving.make_next(alloc, &mut self.team) {
            Ok(()) => Ok(()),
            Err(refused) => {
                self.team.spend();
                Err(refused)
            }
        }
    }

    /// One cycle of the team, by its workers where it has some.
    fn cycle_team<R: Threads + Sync, G: Gate>(
        &mut self,
        rt: &R,
        alloc: Global,
        gate: &G,
    ) -> Result<Bucket, OutOfMemory>
        requires workers { AreWorkers self.old.workers }
        requires goes_on { GoesOn M.meaning self.old.team.world }
        ensures cycled { HasCycled M.meaning self.old.team.world result self.new.team.world }
        ensures moving { self.new.moving ≡ self.old.moving }
        ensures workers { self.new.workers ≡ self.old.workers }
    {
        match self.workers {
            Some(workers) => self.team.cycle_by(rt, alloc, workers, gate),
            None => self.team.cycle(rt, alloc, gate),
        }
    }

    /// One cycle, after the moves that come before it: nothing moves after the last.
    fn move_and_cycle<R: Threads + Sync, G: Gate>(
        &mut self,
        rt: &R,
        alloc: Global,
        gate: &G,
    ) -> Result<Bucket, OutOfMemory>
        requires workers { AreWorkers self.old.workers }
        requires goes_on { GoesOn M.meaning self.old.team.world }
        ensures cycled { HasCycled M.meaning self.old.team.world result self.new.team.world }
        ensures moving { OnOk result (self.new.moving ≡ record { moves = self.old.moving.moves; cycles = min (self.old.moving.cycles + 1) (2 ^ 64 - 1) }) }
        ensures workers { self.new.workers ≡ self.old.workers }
    {
        self.make_moves(alloc)?;
        self.moving = self.moving.after();
        self.cycle_team(rt, alloc, gate)
    }

    /// Hands the team the records that were given back, whose room the next cycle takes.
    fn reuse_room(&mut self)
        ensures team { self.new.team ≡ self.old.team }
        ensures moving { self.new.moving ≡ self.old.moving }
        ensures workers { self.new.workers ≡ self.old.workers }
    {
        if let Some(records) = self.told.spare.take() {
            self.team.give_back(records);
        }
    }

    /// The same, after which the run tells where it stands.
    pub fn cycle<R: Threads + Sync, G: Gate>(
        &mut self,
        rt: &R,
        alloc: Global,
        gate: &G,
    ) -> Result<Bucket, OutOfMemory>
        requires workers { AreWorkers self.old.workers }
        requires goes_on { GoesOn M.meaning self.old.team.world }
        ensures cycled { TeamCycles M.meaning self.old result self.new }
        ensures moving { OnOk result (self.new.moving ≡ record { moves = self.old.moving.moves; cycles = min (self.old.moving.cycles + 1) (2 ^ 64 - 1) }) }
        ensures workers { self.new.workers ≡ self.old.workers }
    {
        self.reuse_room();
        let bucket = self.move_and_cycle(rt, alloc, gate);
        self.told = Told::new(self.team.ended(), self.team.count());
        bucket
    }
}

impl<M: Model> Engine for TeamRun<M> {
    ghost use Rattle.model_program.specs.RunStandings.{TeamStandsAt};

    ghost meaning = { λ run. M.meaning run.team.world.model };

    ghost terms = { λ run. run.team.world.terms };

    ghost stands_at = { λ run. TeamStandsAt M.meaning run };

    fn give_back(&mut self, records: Records) {
        self.told.spare = Some(records);
    }

    fn ended(&self) -> Option<Stop> {
        self.told.ended
    }

    fn count(&self) -> u64 {
        self.told.count
    }
}
