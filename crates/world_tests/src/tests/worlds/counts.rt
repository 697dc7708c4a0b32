//! What nodes count over the cycles of a world.
use super::world_of;
use super::world_run::WorldRun;
use model_core::model::Model as SimulationModel;
use node_core::Tallies;
use sim_spec::Placement;
use std::alloc::Global;
use std::process::Abort;
use std::test::Fail;
use test_texts::FALSE_FAULT;

/// After a cycle each node has committed all that it has processed, and this is how much in all.
fn assert_committed<R: Abort, M: SimulationModel>(
    rt: &R,
    alloc: Global,
    world: &mut WorldRun<M>,
    nodes: usize,
    committed: &[u64; 2],
) -> Result<(), Fail> {
    let tallies = world.tallies(alloc)?;
    assert!(rt; tallies.len() == nodes);
    for (tally, count) in tallies.iter().zip(committed.iter()) {
        let wanted = Tallies {
            processed: *count,
            undone: 0,
            committed: *count,
            left: 0,
        };
        assert!(rt; *tally == wanted);
    }
    Ok(())
}

/// What each of so many nodes has committed after each cycle of a world, two at most.
fn assert_counts<R: Abort, M: SimulationModel>(
    rt: &R,
    alloc: Global,
    world: &mut WorldRun<M>,
    nodes: usize,
    cycles: &[[u64; 2]],
) -> Result<(), Fail> {
    for committed in cycles {
        world.cycles(alloc, 1)?;
        assert_committed(rt, alloc, world, nodes, committed)?;
    }
    assert!(rt; world.next(alloc)?.is_none());
    Ok(())
}

/// The buckets of a node alone are 5.0; 9.0; 9.1, 10.0 and 11.0; 14.0; 14.1 and 18.0; 18.1.
const ALONE: [[u64; 2]; 6] = [[1, 0], [2, 0], [5, 0], [6, 0], [8, 0], [9, 0]];

/// The first node has the station: its arrivals and ends of service, and the second node has the sink.
const OF_TWO: [[u64; 2]; 6] = [[1, 0], [2, 0], [4, 1], [5, 1], [6, 2], [6, 3]];

// A node alone takes its events in order, so it undoes nothing, and the fault is never met.
#[test]
fn a_node_alone_undoes_nothing(rt: HostRuntime) -> Result<(), Fail> {
    let mut world = world_of(&rt, rt.alloc(), FALSE_FAULT, 1, Placement::Round)?;
    assert_counts(&rt, rt.alloc(), &mut world, 1, &ALONE)
}

#[test]
fn each_node_counts_what_happens_at_its_objects(rt: HostRuntime) -> Result<(), Fail> {
    let mut world = world_of(&rt, rt.alloc(), FALSE_FAULT, 2, Placement::Round)?;
    assert_counts(&rt, rt.alloc(), &mut world, 2, &OF_TWO)
}
