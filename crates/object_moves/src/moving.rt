//! Objects move.
ghost use Rattle.std.specs.Prelude.{◌≡◌, OnOk, OnErr};
ghost use Rattle.std.specs.List.{AllByRecursion};
ghost use Rattle.sim_spec.specs.Standing.{Standing};
ghost use Rattle.sim_spec.specs.State.{State};
ghost use Rattle.cycle_core.specs.Standings.{WorldStandsAt};
ghost use Rattle.cycle_core.specs.Worlds.{StandsAt};
ghost use Rattle.object_moves.specs.Moves.{Exists, IsSameButHomes, homes_after};

use crate::moves::Move;
use crate::preparing::prepare;
use crate::step::make;
use cycle_core::World;
use model_core::OutOfMemory;
use model_core::model::Model as SimulationModel;
use std::alloc::Global;

/// Makes these moves, one after another. An object goes with its log and the events that wait for it: nothing is undone
/// or copied. Each move copies the homes, four bytes for each object of the model, and makes room for as many events as the
/// world has processed and as many objects as the model has; all memory is taken before the first move. Beside that it costs a step of the queue for each event
/// that waits at the node that the object leaves.
pub fn move_objects<M: SimulationModel>(
    alloc: Global,
    world: &mut World<M>,
    moves: &[Move],
) -> Result<(), OutOfMemory>
    requires stands { (s : State) × StandsAt (M.meaning world.old.model) world.old s }
    requires exist { AllByRecursion (Exists world.old.homes) moves.now }
    ensures stands { (s : State) → StandsAt (M.meaning world.old.model) world.old s → StandsAt (M.meaning world.new.model) world.new s }
    ensures at { (at : Standing) → WorldStandsAt M.meaning world.old at → WorldStandsAt M.meaning world.new at }
    ensures same { IsSameButHomes world.old world.new }
    ensures homes { OnOk result (world.new.homes ≡ homes_after world.old.homes moves.now) }
    ensures refused { OnErr result (world.new ≡ world.old) }
{
    let steps = prepare(alloc, world, moves)?;
    let mut nodes = world.take_nodes();
    for step in steps {
        world.set_homes(make(step, nodes.as_mut_slice()));
    }
    world.put_nodes(nodes);
    Ok(())
}
