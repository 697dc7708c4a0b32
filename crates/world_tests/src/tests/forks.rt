//! What runs side by side in every cycle that is wide enough, and not in the first one alone: the end of a cycle, and turns
//! that are stolen.
mod watched;

use super::hops;
use super::team_run::{TeamRun, by_rings};
use event_key::Key;
use model_core::model::Model as SimulationModel;
use node_team::{Gate, Open};
use release_lanes::RingLanes;
use sim_spec::Terms;
use std::alloc::Global;
use std::hint;
use std::process::Abort;
use std::sync::Arc;
use std::sync::atomic::{AtomicU64, Ordering};
use std::test::Fail;
use std::thread::Threads;
use watched::{Watch, WatchedLanes};

/// How often a gate or an end asks before it gives up.
const TURNS: u64 = 200_000_000;

/// After each of three cycles of four nodes with this model, so many ends have met, and so many parcels were taken early.
fn assert_taken<R: Abort + Threads + Sync, M: SimulationModel>(
    rt: &R,
    alloc: Global,
    model: Arc<M>,
    terms: Terms,
    wanted: [u64; 3],
) -> Result<(), Fail> {
    let watch = Arc::new(alloc, Watch::new(4, TURNS))?;
    let lanes = WatchedLanes::new(alloc, RingLanes::new(alloc, 4)?, 4, Arc::clone(&watch)?);
    let mut run = TeamRun::new(alloc, model, terms, 4, 0, lanes)?;
    for ends in wanted {
        let before = watch.polls();
        run.cycles(rt, alloc, &Open, 1)?;
        assert!(rt; watch.met() == ends);
        assert!(rt; watch.taken() == ends);
        let polled = watch.polls() > before;
        assert!(rt; polled == (ends > 4 || before == 0));
    }
    Ok(())
}

// Each node posts one parcel, to the next node. An end that waits at its first poll sees the others come to theirs only where
// all four post in threads of their own, and then finds what was posted to it.
#[test]
fn a_wide_cycle_ends_in_threads_that_take_parcels_early(rt: HostRuntime) -> Result<(), Fail> {
    let (model, terms) = hops(rt.alloc(), 2_048)?;
    assert_taken(&rt, rt.alloc(), model, terms, [4, 8, 12])
}

// The first cycle is taken for a wide one.
#[test]
fn a_narrow_cycle_takes_no_parcel_early_but_for_the_first(rt: HostRuntime) -> Result<(), Fail> {
    let (model, terms) = hops(rt.alloc(), 64)?;
    assert_taken(&rt, rt.alloc(), model, terms, [4, 4, 4])
}

/// Holds node 0 where it enters until all others have entered in the same cycle, for so many turns at most, and counts the
/// cycles in which it saw that.
#[derive(Drop)]
struct Stick {
    others: u64,
    held: AtomicU64,
    entered: AtomicU64,
    seen: AtomicU64,
}

impl Stick {
    /// Node 0 has so many others beside it.
    fn new(others: u64) -> Stick {
        Stick {
            others,
            held: AtomicU64::new(0),
            entered: AtomicU64::new(0),
            seen: AtomicU64::new(0),
        }
    }

    /// In so many cycles all others have entered.
    fn cycles(&self) -> Option<u64> {
        self.entered.load(Ordering::SeqCst).checked_div(self.others)
    }

    fn hold(&self) {
        let before = self.held.fetch_add(1, Ordering::SeqCst);
        for _ in 0..TURNS {
            if self.cycles().is_some_and(|cycles| cycles > before) {
                self.seen.fetch_add(1, Ordering::SeqCst);
                return;
            }
            hint::spin_loop();
        }
    }
}

impl Gate for Stick {
    fn enter(&self, node: u32) {
        if node == 0 {
            self.hold();
        } else {
            self.entered.fetch_add(1, Ordering::SeqCst);
        }
    }

    fn did(&self, _node: u32, _key: &Key) {}
}

/// In each of three cycles of eight nodes that two workers do the gate sees all others.
fn assert_stolen<R: Abort + Threads + Sync, M: SimulationModel>(
    rt: &R,
    alloc: Global,
    model: Arc<M>,
    terms: Terms,
) -> Result<(), Fail> {
    let gate = Stick::new(7);
    let mut run = by_rings(alloc, model, terms, 8, 0)?;
    run.cycles_by_two(rt, alloc, &gate, 3)?;
    assert!(rt; gate.seen.load(Ordering::SeqCst) == 3);
    Ok(())
}

// Three turns wait behind that of node 0 in one deque. So node 0 sees them only where the other worker steals them; and not
// where threads take fixed parts of the nodes, of which one would have node 0 and node 1.
#[test]
fn turns_behind_one_that_waits_are_stolen_in_each_wide_cycle(rt: HostRuntime) -> Result<(), Fail> {
    let (model, terms) = hops(rt.alloc(), 2_048)?;
    assert_stolen(&rt, rt.alloc(), model, terms)
}
