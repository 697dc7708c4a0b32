//! What moves take, before the first of them is made.
ghost use Rattle.std.specs.Prelude.{◌≡◌, IfOk, OnOk};
ghost use Rattle.std.specs.Arc.{arc_value};
ghost use Rattle.std.specs.List.{AllByRecursion};
ghost use Rattle.node_core.specs.Homes.{HomesView, rehomed};
ghost use Rattle.sim_spec.specs.State.{State};
ghost use Rattle.cycle_core.specs.Moving.{processed_in};
ghost use Rattle.cycle_core.specs.Worlds.{StandsAt};
ghost use Rattle.object_moves.specs.Moves.{Exists, homes_after};
ghost use Rattle.object_moves.specs.Steps.{AreSteps};

use crate::moves::Move;
use crate::step::Step;
use cycle_core::World;
use model_core::OutOfMemory;
use model_core::model::Model as SimulationModel;
use node_core::Homes;
use std::alloc::Global;
use std::sync::Arc;

/// Adds what a move takes, and answers the homes after it. One to the node that has the object already takes nothing.
fn prepare_next(
    alloc: Global,
    homes: Arc<Homes>,
    next: Move,
    places: usize,
    steps: &mut Vec<Step>,
) -> Result<Arc<Homes>, OutOfMemory>
    requires { Exists (arc_value homes) next }
    ensures after { IfOk result (λ after. arc_value after ≡ rehomed (arc_value homes) next.object next.node) }
    ensures steps { OnOk result ((first : HomesView) → AreSteps places first steps.old.items (arc_value homes)
        → AreSteps places first steps.new.items (rehomed (arc_value homes) next.object next.node)) }
{
    if homes.home(next.object) == next.node {
        return Ok(homes);
    }
    let made = Step::new(alloc, &homes, next.object, next.node, places)?;
    steps.push(made.0)?;
    Ok(made.1)
}

/// All that moves take.
pub fn prepare<M: SimulationModel>(
    alloc: Global,
    world: &World<M>,
    moves: &[Move],
) -> Result<Vec<Step>, OutOfMemory>
    requires stands { (s : State) × StandsAt (M.meaning world.now.model) world.now s }
    requires exist { AllByRecursion (Exists world.now.homes) moves.now }
    ensures { IfOk result (λ steps. AreSteps (processed_in world.now.nodes) world.now.homes steps.items (homes_after world.now.homes moves.now)) }
{
    let places = world.processed();
    let mut homes = Arc::clone(world.homes())?;
    let mut steps = Vec::with_capacity(alloc, moves.len())?;
    for next in moves {
        let after = prepare_next(alloc, homes, *next, places, &mut steps)?;
        homes = after;
    }
    Ok(steps)
}
