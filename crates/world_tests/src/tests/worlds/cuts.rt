//! Where a limit cuts a cycle, and what a spent world answers.
use super::world_run::WorldRun;
use super::{PLACEMENTS, world_of};
use cycle_core::Cut;
use event_key::Key;
use model_core::model::Model as SimulationModel;
use sim_spec::Placement;
use std::alloc::Global;
use std::process::Abort;
use std::test::Fail;
use test_texts::{SHOP, SHOP_OF_TEN};

/// The first event past the limit, at 10.
const BELOW: Key = Key {
    stamp: 10 * 65_536,
    rank: 0,
    dest: 1,
    src: 1,
    serial: 4,
};

/// Where a cycle is cut that comes after so many.
fn cut_after<M: SimulationModel>(
    alloc: Global,
    world: &mut WorldRun<M>,
    cycles: u32,
) -> Result<Cut, Fail> {
    world.cycles(alloc, cycles)?;
    Ok(world.cut(alloc)?)
}

// Nine events are done before the bucket of 7.1 and 10.0, and the limit is ten.
#[test]
fn a_limit_cuts_a_bucket_at_the_first_event_past_it(rt: HostRuntime) -> Result<(), Fail> {
    let alloc = rt.alloc();
    let wanted = Cut {
        below: Some(BELOW),
        fault: None,
        limited: true,
    };
    for nodes in [1, 2, 3] {
        for placement in PLACEMENTS {
            let mut world = world_of(&rt, alloc, SHOP_OF_TEN, nodes, placement)?;
            let cut = cut_after(alloc, &mut world, 5)?;
            assert!(rt; cut == wanted, "on {nodes} nodes");
        }
    }
    Ok(())
}

/// A world does a cycle, and is spent then.
fn spend<R: Abort, M: SimulationModel>(
    rt: &R,
    alloc: Global,
    world: &mut WorldRun<M>,
) -> Result<(), Fail> {
    world.cycles(alloc, 1)?;
    assert!(rt; !world.is_spent());
    world.spend();
    for _ in 0..2 {
        assert!(rt; world.is_spent());
        assert!(rt; world.refuses(alloc));
    }
    assert!(rt; world.is_spent());
    Ok(())
}

#[test]
fn a_spent_world_answers_that_memory_has_run_out(rt: HostRuntime) -> Result<(), Fail> {
    let mut world = world_of(&rt, rt.alloc(), SHOP, 2, Placement::Round)?;
    spend(&rt, rt.alloc(), &mut world)
}
