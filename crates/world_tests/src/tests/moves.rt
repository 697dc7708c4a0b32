//! Objects that move between two nodes.
ghost use Rattle.std.specs.Prelude.{IfOk, OnOk};
ghost use Rattle.sim_spec.specs.State.{State};
ghost use Rattle.cycle_core.specs.Worlds.{StandsAt};

use super::ring;
use cycle_core::World;
use model_core::model::Model as SimulationModel;
use object_moves::{Move, move_objects, plan_by_load};
use phold_model::Phold;
use sim_spec::{Placement, Terms};
use std::alloc::Global;
use std::process::Abort;
use std::sync::Arc;
use std::test::Fail;

/// The ring on two nodes, of which the first has two of the objects, and both events.
fn uneven(alloc: Global) -> Result<World<Phold>, Fail>
    ensures { IfOk result (λ world. (s : State) × StandsAt (⟦<Phold as SimulationModel>⟧.meaning world.model) world s) }
{
    let model = Arc::new(alloc, ring(alloc)?)?;
    let terms = Terms {
        end: 9,
        limit: 1_000,
    };
    Ok(World::begin(alloc, model, terms, 2, Placement::Block)?)
}

/// The moves that are planned, once they are made.
fn balance<M: SimulationModel>(alloc: Global, world: &mut World<M>) -> Result<Vec<Move>, Fail>
    requires { (s : State) × StandsAt (M.meaning world.old.model) world.old s }
    ensures { OnOk result ((s : State) × StandsAt (M.meaning world.new.model) world.new s) }
{
    let plan = plan_by_load(alloc, world)?;
    move_objects(alloc, world, plan.as_slice())?;
    Ok(plan)
}

/// The home of each object.
fn homes_of<M: SimulationModel>(alloc: Global, world: &World<M>) -> Result<Vec<u32>, Fail> {
    let mut homes = Vec::new(alloc);
    for object in 0..world.homes().objects() {
        homes.push(world.home(object))?;
    }
    Ok(homes)
}

/// The objects have these homes.
fn assert_homes<R: Abort, M: SimulationModel>(
    rt: &R,
    alloc: Global,
    world: &World<M>,
    homes: &[u32],
) -> Result<(), Fail> {
    let found = homes_of(alloc, world)?;
    assert!(rt; found.as_slice() == homes);
    Ok(())
}

/// The least object goes from the first node to the second, and then no other.
fn balance_twice<R: Abort, M: SimulationModel>(
    rt: &R,
    alloc: Global,
    world: &mut World<M>,
) -> Result<(), Fail>
    requires { (s : State) × StandsAt (M.meaning world.old.model) world.old s }
{
    assert_homes(rt, alloc, world, &[0, 0, 1])?;
    let first = balance(alloc, world)?;
    assert!(rt; first.as_slice() == [Move { object: 0, node: 1 }].as_slice());
    assert_homes(rt, alloc, world, &[1, 0, 1])?;
    let second = balance(alloc, world)?;
    assert!(rt; second.len() == 0);
    Ok(())
}

#[test]
fn the_least_object_goes_from_the_fullest_node_to_the_emptiest(
    rt: HostRuntime,
) -> Result<(), Fail> {
    let mut world = uneven(rt.alloc())?;
    balance_twice(&rt, rt.alloc(), &mut world)
}
