//! The team.
ghost use Rattle.std.specs.Prelude.{◌≡◌, ◌≤◌, true, IfOk, OnOk, OnErr};
ghost use Rattle.std.specs.List.{AllByRecursion};
ghost use Rattle.steal_pool.specs.declared.worker.TheConstants.{MOST_WORKERS};
ghost use Rattle.sim_spec.specs.Standing.{Standing, ended, IsCountAt};
ghost use Rattle.sim_spec.specs.State.{State};
ghost use Rattle.cycle_core.specs.Standings.{WorldStandsAt};
ghost use Rattle.cycle_core.specs.Worlds.{CanCycle, StandsAt};
ghost use Rattle.object_moves.specs.Moves.{Exists, IsSameButHomes, homes_after};
ghost use Rattle.node_team.specs.Cycles.{HasDoneCycle};

use crate::cycling::cycle;
use crate::gate::Gate;
use crate::kept::Kept;
use crate::setting::Setting;
use cycle_core::World;
use model_core::model::Model as SimulationModel;
use model_core::{OutOfMemory, Records};
use object_moves::{Move, move_objects};
use release_lanes::Lanes;
use sim_spec::{Bucket, State, Stop};
use std::alloc::Global;
use std::marker::Model;
use std::thread::Threads;

/// The nodes of a world as a team: in each cycle they advance side by side below one event horizon, which they find
/// together, commit what lies below it and release to each other what that sent (Breathing Time Buckets; J. S. Steinman,
/// "Breathing Time Warp", PADS 1993). From cycle to cycle it keeps the world, the lanes between its nodes and the memory of
/// its lists.
#[derive(Drop)]
pub struct Team<M: SimulationModel, L: Lanes> {
    world: World<M>,
    ahead: u32,
    kept: Kept<L>,
}

impl<M: SimulationModel, L: Lanes> Model for Team<M, L> {
    ghost use Rattle.std.specs.Prelude.{◌≡◌, false};
    ghost use Rattle.node_team.specs.Readiness.{IsReady};
    ghost use Rattle.node_team.specs.Teams.{TeamView};

    ghost Value = { TeamView M };

    ghost view = { λ team. record { world = team.world; ahead = team.ahead } };

    ghost invariant = { λ team. team.world.is_spent ≡ false → IsReady L.nodes L.are_at_rest team.world.homes.nodes team.kept };
}

impl<M: SimulationModel, L: Lanes + Drop> Team<M, L> {
    /// The team of a world and lanes between its nodes. In a cycle each node processes at least `ahead` events, as far as it
    /// has them, though they may lie past the horizon and be undone. It answers an error only for want of memory.
    pub fn new(
        alloc: Global,
        world: World<M>,
        lanes: L,
        ahead: u32,
    ) -> Result<Team<M, L>, OutOfMemory>
        requires nodes { L.nodes lanes ≡ world.homes.nodes }
        requires rest { L.are_at_rest lanes }
        ensures world { IfOk result (λ team. team.world ≡ world) }
        ensures ahead { IfOk result (λ team. team.ahead ≡ ahead) }
    {
        let kept = Kept::new(alloc, lanes, world.nodes())?;
        Ok(Team { world, ahead, kept })
    }

    /// The world.
    pub fn world(&self) -> &World<M>
        ensures { result.now ≡ self.now.world }
    {
        &self.world
    }

    /// How many events are done.
    pub fn count(&self) -> u64
        ensures value { result ≡ self.now.world.count }
        ensures at { (at : Standing) → WorldStandsAt M.meaning self.now.world at → IsCountAt at result }
    {
        self.world.count()
    }

    /// Why no cycle comes any more, where none does: the end or the limit is met, or the last bucket ended at a fault. It
    /// is None of a team whose memory has run out.
    pub fn ended(&self) -> Option<Stop>
        ensures { (at : Standing) → WorldStandsAt M.meaning self.now.world at
            → result ≡ ended (M.meaning self.now.world.model) self.now.world.terms at }
    {
        self.world.ended()
    }

    /// Takes out the state for which the world stands. What is processed is undone first: the world stands for the same
    /// state, and does after a refusal.
    pub fn snapshot(&mut self, alloc: Global) -> Result<State, OutOfMemory>
        requires { (s : State) × StandsAt (M.meaning self.old.world.model) self.old.world s }
        ensures state { (s : State) → StandsAt (M.meaning self.old.world.model) self.old.world s → IfOk result (λ state. state ≡ s) }
        ensures stands { (s : State) → StandsAt (M.meaning self.old.world.model) self.old.world s
            → StandsAt (M.meaning self.new.world.model) self.new.world s }
        ensures world { self.new.world ≡ record self.old.world { nodes = self.new.world.nodes } }
        ensures ahead { self.new.ahead ≡ self.old.ahead }
    {
        self.world.snapshot(alloc)
    }

    /// Makes these moves, one after another. An object goes with its log and the events that wait for it: nothing is undone,
    /// and the world stands for the same state. After a refusal the team is as it was.
    pub fn move_objects(&mut self, alloc: Global, moves: &[Move]) -> Result<(), OutOfMemory>
        requires stands { (s : State) × StandsAt (M.meaning self.old.world.model) self.old.world s }
        requires exist { AllByRecursion (Exists self.old.world.homes) moves.now }
        ensures stands { (s : State) → StandsAt (M.meaning self.old.world.model) self.old.world s
            → StandsAt (M.meaning self.new.world.model) self.new.world s }
        ensures at { (at : Standing) → WorldStandsAt M.meaning self.old.world at → WorldStandsAt M.meaning self.new.world at }
        ensures same { IsSameButHomes self.old.world self.new.world }
        ensures homes { OnOk result (self.new.world.homes ≡ homes_after self.old.world.homes moves.now) }
        ensures refused { OnErr result (self.new ≡ self.old) }
        ensures ahead { self.new.ahead ≡ self.old.ahead }
    {
        move_objects(alloc, &mut self.world, moves)
    }

    /// Takes back the records of a bucket that nobody reads any more: those of a later one are put where they stood.
    pub fn give_back(&mut self, records: Records)
        ensures { self.new ≡ self.old }
    {
        self.world.give_back(records);
    }

    /// Spends the world: no later cycle is answered.
    pub fn spend(&mut self)
        ensures world { self.new.world ≡ record self.old.world { is_spent = true } }
        ensures ahead { self.new.ahead ≡ self.old.ahead }
    {
        self.world.spend();
    }

    /// One cycle. The nodes advance and commit in threads where that pays, and always in the first cycle. It answers an
    /// error only for want of memory; the world is spent then, and so is the answer of each later cycle.
    pub fn cycle<R: Threads + Sync, G: Gate>(
        &mut self,
        rt: &R,
        alloc: Global,
        gate: &G,
    ) -> Result<Bucket, OutOfMemory>
        requires { CanCycle (M.meaning self.old.world.model) self.old.world }
        ensures { HasDoneCycle M.meaning self.old result self.new }
    {
        let setting = Setting {
            rt,
            alloc,
            gate,
            ahead: self.ahead,
            workers: None,
        };
        cycle(&setting, &mut self.world, &mut self.kept)
    }

    /// One cycle, in which so many workers, 1 to 64, take the nodes' turns of the advance and steal them from each other,
    /// where an advance in threads pays. All else is as in `cycle`.
    pub fn cycle_by<R: Threads + Sync, G: Gate>(
        &mut self,
        rt: &R,
        alloc: Global,
        workers: u32,
        gate: &G,
    ) -> Result<Bucket, OutOfMemory>
        requires workers { (1 ≤ workers) × (workers ≤ MOST_WORKERS) }
        requires can { CanCycle (M.meaning self.old.world.model) self.old.world }
        ensures { HasDoneCycle M.meaning self.old result self.new }
    {
        let setting = Setting {
            rt,
            alloc,
            gate,
            ahead: self.ahead,
            workers: Some(workers),
        };
        cycle(&setting, &mut self.world, &mut self.kept)
    }
}
