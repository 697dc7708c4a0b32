//! In how many threads the cycles of a team run.
use crate::tests::hops;
use crate::tests::team_run::{TeamRun, by_rings};
use event_key::Key;
use model_core::model::Model as SimulationModel;
use model_text::AnyModel;
use node_team::Gate;
use release_lanes::RingLanes;
use std::alloc::Global;
use std::hint;
use std::process::Abort;
use std::sync::atomic::{AtomicU64, Ordering};
use std::test::Fail;
use std::thread::Threads;

const NODES: u64 = 4;

/// How many events of a cycle are just enough for the next one to run in several threads.
const ENOUGH: u32 = 1_536;

/// Four nodes with so many objects, each of which sends its event to the next one in five ticks.
fn team_of(alloc: Global, objects: u32) -> Result<TeamRun<AnyModel, RingLanes>, Fail> {
    let (model, terms) = hops(alloc, objects)?;
    Ok(by_rings(alloc, model, terms, NODES as u32, 0)?)
}

/// Holds each entry until all nodes have entered in the same cycle, for so many turns at most, and counts the entries that
/// saw all others. In the first cycle it is always patient.
#[derive(Drop)]
struct Gathering {
    turns: u64,
    entered: AtomicU64,
    met: AtomicU64,
}

impl Gathering {
    fn new(turns: u64) -> Gathering {
        Gathering {
            turns,
            entered: AtomicU64::new(0),
            met: AtomicU64::new(0),
        }
    }

    /// How many entries saw all others.
    fn met(&self) -> u64 {
        self.met.load(Ordering::SeqCst)
    }
}

impl Gate for Gathering {
    fn enter(&self, _node: u32) {
        let cycle = self.entered.fetch_add(1, Ordering::SeqCst) / NODES;
        let turns = if cycle == 0 { 200_000_000 } else { self.turns };
        for _ in 0..turns {
            if self.entered.load(Ordering::SeqCst) / NODES > cycle {
                self.met.fetch_add(1, Ordering::SeqCst);
                return;
            }
            hint::spin_loop();
        }
    }

    fn did(&self, _node: u32, _key: &Key) {}
}

/// Three cycles with so many events each, in which so many entries see all others.
fn assert_met<R: Abort + Threads + Sync, M: SimulationModel>(
    rt: &R,
    alloc: Global,
    run: &mut TeamRun<M, RingLanes>,
    gate: &Gathering,
    events: u64,
    met: u64,
) -> Result<(), Fail> {
    run.cycles(rt, alloc, gate, 3)?;
    assert!(rt; run.count() == events.saturating_mul(3));
    assert!(rt; gate.met() == met);
    Ok(())
}

#[test]
fn a_wide_cycle_runs_in_as_many_threads_as_there_are_nodes(rt: HostRuntime) -> Result<(), Fail> {
    let gate = Gathering::new(200_000_000);
    let mut run = team_of(rt.alloc(), ENOUGH)?;
    assert_met(
        &rt,
        rt.alloc(),
        &mut run,
        &gate,
        u64::from(ENOUGH),
        3 * NODES,
    )
}

// Where nodes enter one after another the last one alone sees all others.
#[test]
fn a_narrow_cycle_runs_in_one_thread_but_for_the_first(rt: HostRuntime) -> Result<(), Fail> {
    let gate = Gathering::new(1_000);
    let mut run = team_of(rt.alloc(), ENOUGH - 1)?;
    assert_met(
        &rt,
        rt.alloc(),
        &mut run,
        &gate,
        u64::from(ENOUGH - 1),
        NODES + 2,
    )
}
