//! Which object goes where, so that nodes have as much to do as each other.
ghost use Rattle.std.specs.Prelude.{◌<◌, IfOk};
ghost use Rattle.cycle_core.specs.Worlds.{HasNodes};
ghost use Rattle.object_moves.specs.Loads.{IsFirstLoad, IsPlanByLoad, Picks, fewer_of, least_of, more_of, most_of};

use crate::moves::Move;
use cycle_core::World;
use model_core::OutOfMemory;
use model_core::model::Model as SimulationModel;
use std::alloc::Global;

/// The node of the two with more events, the first one where these are as many.
fn fuller<M: SimulationModel>(world: &World<M>, found: u32, next: u32) -> u32
    requires nodes { HasNodes world.now }
    requires found { found < world.now.homes.nodes }
    requires next { next < world.now.homes.nodes }
    ensures { Picks more_of most_of world.now.nodes found next result }
{
    if world.node(next).pending() > world.node(found).pending() {
        next
    } else {
        found
    }
}

/// The node of the two with fewer events, the first one where these are as many.
fn emptier<M: SimulationModel>(world: &World<M>, found: u32, next: u32) -> u32
    requires nodes { HasNodes world.now }
    requires found { found < world.now.homes.nodes }
    requires next { next < world.now.homes.nodes }
    ensures { Picks fewer_of least_of world.now.nodes found next result }
{
    if world.node(next).pending() < world.node(found).pending() {
        next
    } else {
        found
    }
}

/// The first node with the most events.
fn fullest<M: SimulationModel>(world: &World<M>) -> u32
    requires { HasNodes world.now }
    ensures { IsFirstLoad most_of world.now.nodes result }
{
    let mut found = 0;
    for number in 1..world.nodes() {
        found = fuller(world, found, number);
    }
    found
}

/// The first node with the fewest events.
fn emptiest<M: SimulationModel>(world: &World<M>) -> u32
    requires { HasNodes world.now }
    ensures { IsFirstLoad least_of world.now.nodes result }
{
    let mut found = 0;
    for number in 1..world.nodes() {
        found = emptier(world, found, number);
    }
    found
}

/// The move of the least object of the first node with the most events to the first node with the fewest, where these
/// differ by at least 2 and the one has at least two objects; else no move. It looks at what nodes count, and searches
/// for the least object only where it moves.
pub fn plan_by_load<M: SimulationModel>(
    alloc: Global,
    world: &World<M>,
) -> Result<Vec<Move>, OutOfMemory>
    requires { HasNodes world.now }
    ensures { IfOk result (λ moves. IsPlanByLoad world.now moves.items) }
{
    let node = emptiest(world);
    let from = world.node(fullest(world));
    let more = from.pending().saturating_sub(world.node(node).pending());
    if more < 2 {
        return Ok(Vec::new(alloc));
    }
    if from.objects() < 2 {
        return Ok(Vec::new(alloc));
    }
    let Some(object) = from.least_object() else {
        unreachable!()
    };
    let mut plan = Vec::new(alloc);
    plan.push(Move { object, node })?;
    Ok(plan)
}
