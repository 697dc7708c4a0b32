//! Which objects move between the nodes, and after which cycles.
ghost use Rattle.std.specs.Prelude.{◌≡◌, ◌+◌, ◌-◌, ◌^◌, ℕ, List, min, IfOk, OnOk};
ghost use Rattle.std.specs.List.{AllByRecursion};
ghost use Rattle.sim_spec.specs.Standing.{Standing};
ghost use Rattle.sim_spec.specs.State.{State};
ghost use Rattle.cycle_core.specs.Standings.{WorldStandsAt};
ghost use Rattle.cycle_core.specs.Worlds.{HasNodes, StandsAt};
ghost use Rattle.object_moves.specs.Moves.{Exists};
ghost use Rattle.model_program.specs.Plans.{HasMoved, IsPlan, moves_by_turn};

use cycle_core::World;
use model_core::OutOfMemory;
use model_core::model::Model;
use node_core::Homes;
use node_team::Team;
use object_moves::{Move, plan_by_load};
use release_lanes::RingLanes;
use sim_io::Moves;
use std::alloc::Global;

/// Which objects move, and how many cycles there were. Moves come before the next cycle, so all of these were whole: after
/// one that a fault or the limit cut there is none.
#[derive(Clone, Copy, Debug, PartialEq, Eq)]
pub struct Moving {
    pub moves: Option<Moves>,
    pub cycles: u64,
}

/// The objects take turns, and so do the nodes: after so many cycles the one object goes to the one node whose turn it is.
fn move_in_turn(alloc: Global, homes: &Homes, cycles: u64) -> Result<Vec<Move>, OutOfMemory>
    ensures plan { IfOk result (λ plan. plan.items ≡ moves_by_turn homes.now cycles) }
    ensures exist { IfOk result (λ plan. AllByRecursion (Exists homes.now) plan.items) }
{
    let objects = homes.objects();
    if objects == 0 {
        return Ok(Vec::new(alloc));
    }
    let object = (cycles.saturating_sub(1) % u64::from(objects)) as u32;
    let node = (cycles % u64::from(homes.nodes())) as u32;
    let mut plan = Vec::new(alloc);
    plan.push(Move { object, node })?;
    Ok(plan)
}

/// What moves after so many cycles.
fn next_moves<M: Model>(
    alloc: Global,
    world: &World<M>,
    moves: Moves,
    cycles: u64,
) -> Result<Vec<Move>, OutOfMemory>
    requires { HasNodes world.now }
    ensures plan { IfOk result (λ plan. IsPlan moves cycles world.now plan.items) }
    ensures exist { IfOk result (λ plan. AllByRecursion (Exists world.now.homes) plan.items) }
{
    match moves {
        Moves::Load => plan_by_load(alloc, world),
        Moves::Turn => move_in_turn(alloc, world.homes(), cycles),
    }
}

impl Moving {
    /// Before the first cycle.
    pub fn new(moves: Option<Moves>) -> Moving
        ensures { result ≡ record { moves = moves; cycles = 0 } }
    {
        Moving { moves, cycles: 0 }
    }

    /// With one cycle more.
    pub fn after(self) -> Moving
        ensures { result ≡ record { moves = self.moves; cycles = min (self.cycles + 1) (2 ^ 64 - 1) } }
    {
        Moving {
            moves: self.moves,
            cycles: self.cycles.saturating_add(1),
        }
    }

    /// Makes the moves that come before the next cycle.
    pub fn make_next<M: Model>(
        self,
        alloc: Global,
        team: &mut Team<M, RingLanes>,
    ) -> Result<(), OutOfMemory>
        requires { (s : State) × StandsAt (M.meaning team.old.world.model) team.old.world s }
        ensures at { (at : Standing) → WorldStandsAt M.meaning team.old.world at → WorldStandsAt M.meaning team.new.world at }
        ensures moved { OnOk result (HasMoved self.moves self.cycles team.old.world team.new.world) }
        ensures model { team.new.world.model ≡ team.old.world.model }
        ensures terms { team.new.world.terms ≡ team.old.world.terms }
        ensures ahead { team.new.ahead ≡ team.old.ahead }
    {
        if self.cycles == 0 {
            return Ok(());
        }
        let Some(moves) = self.moves else {
            return Ok(());
        };
        let plan = next_moves(alloc, team.world(), moves, self.cycles)?;
        team.move_objects(alloc, plan.as_slice())
    }
}
