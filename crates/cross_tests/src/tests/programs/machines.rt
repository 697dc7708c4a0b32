//! What runs the simulation of each command, as gates are told.
use super::{told_at, told_by};
use event_key::Key;
use model_program::Gate;
use std::alloc::{AllocGlobal, Global};
use std::hint;
use std::process::Abort;
use std::sync::atomic::{AtomicBool, AtomicU64, Ordering};
use std::test::Fail;
use std::thread::Threads;

/// One object with ten events ten ticks apart, each of which sends another one after a tick. So the first horizon lies
/// behind the first event, and what the node processes besides in the first cycle it processes ahead.
const SPARSE: &str = "format = 1
model = \"phold\"
end = 100

[phold]
objects = 1
delay = { law = \"fixed\", value = 1 }
to = \"next\"
start = [
  { time = 0, at = 0 }, { time = 10, at = 0 }, { time = 20, at = 0 }, { time = 30, at = 0 }, { time = 40, at = 0 },
  { time = 50, at = 0 }, { time = 60, at = 0 }, { time = 70, at = 0 }, { time = 80, at = 0 }, { time = 90, at = 0 },
]
";

/// Keeps which nodes have entered, and how many events were processed before the first one that is earlier than the one
/// before it: those of the first cycle, where a straggler comes with the second.
#[derive(Drop)]
struct Seen {
    nodes: Vec<AtomicBool>,
    latest: AtomicU64,
    ascending: AtomicU64,
    has_turned: AtomicBool,
}

impl Seen {
    fn new(alloc: Global) -> Result<Seen, Fail> {
        let mut nodes = Vec::new(alloc);
        for _ in 0..64 {
            nodes.push(AtomicBool::new(false))?;
        }
        Ok(Seen {
            nodes,
            latest: AtomicU64::new(0),
            ascending: AtomicU64::new(0),
            has_turned: AtomicBool::new(false),
        })
    }

    /// How many nodes have entered, if they are the first so many.
    fn nodes(&self) -> Option<usize> {
        let mut count = 0;
        for (place, node) in self.nodes.iter().enumerate() {
            if node.load(Ordering::SeqCst) {
                if place != count {
                    return None;
                }
                count += 1;
            }
        }
        Some(count)
    }
}

impl Gate for Seen {
    fn enter(&self, node: u32) {
        if let Some(entered) = self.nodes.get(node as usize) {
            entered.store(true, Ordering::SeqCst);
        }
    }

    fn did(&self, _node: u32, key: &Key) {
        if self.latest.swap(key.stamp, Ordering::SeqCst) > key.stamp {
            self.has_turned.store(true, Ordering::SeqCst);
        }
        if !self.has_turned.load(Ordering::SeqCst) {
            self.ascending.fetch_add(1, Ordering::SeqCst);
        }
    }
}

/// A command that reads this input runs on so many nodes, of which the one with events processes so many in its first cycle.
fn assert_machine<R: Abort + AllocGlobal + Threads + Sync>(
    rt: &R,
    words: &str,
    input: &str,
    nodes: usize,
    first: u64,
) -> Result<(), Fail> {
    let gate = Seen::new(rt.alloc())?;
    let run = told_at(rt, words, input, &gate)?;
    assert!(rt; run.status == 0, "{words}");
    assert!(rt; gate.nodes() == Some(nodes), "{words}");
    assert!(rt; gate.ascending.load(Ordering::SeqCst) == first, "{words}");
    Ok(())
}

/// Commands, on how many nodes each runs, and how many events are processed in the first cycle.
const COMMANDS: [(&str, usize, u64); 5] = [
    ("one", 0, 0),
    ("run --nodes 2 --ahead 3", 2, 3),
    ("run", 4, 8),
    ("totals", 4, 8),
    ("save 2", 4, 8),
];

#[test]
fn each_command_runs_on_four_nodes_that_work_eight_events_ahead(
    rt: HostRuntime,
) -> Result<(), Fail> {
    for (words, nodes, first) in &COMMANDS {
        assert_machine(&rt, words, SPARSE, *nodes, *first)?;
    }
    let initial = told_by(&rt, "save 0", SPARSE)?;
    assert_machine(&rt, "resume", initial.text.as_str(), 4, 8)
}

#[test]
fn a_demo_runs_on_four_nodes(rt: HostRuntime) -> Result<(), Fail> {
    let gate = Seen::new(rt.alloc())?;
    assert!(rt; told_at(&rt, "demo 8", "", &gate)?.status == 0);
    assert!(rt; gate.nodes() == Some(4));
    Ok(())
}

/// How often a gate asks whether another node comes before it takes it that none does.
const MANY_TURNS: u64 = 200_000_000;

/// How often it asks whether one node more comes than there are workers.
const SOME_TURNS: u64 = 2_000_000;

/// Holds each of eight nodes where it first enters until as many are held as there are workers, and then for a while.
#[derive(Drop)]
struct Crowd {
    workers: u64,
    entered: AtomicU64,
    held: AtomicU64,
    has_met: AtomicBool,
    has_more: AtomicBool,
}

impl Crowd {
    fn new(workers: u64) -> Crowd {
        Crowd {
            workers,
            entered: AtomicU64::new(0),
            held: AtomicU64::new(0),
            has_met: AtomicBool::new(false),
            has_more: AtomicBool::new(false),
        }
    }

    /// Waits until as many nodes are held as there are workers, if they never were.
    fn meet(&self) {
        for _ in 0..MANY_TURNS {
            if self.has_met.load(Ordering::SeqCst) {
                return;
            }
            if self.held.load(Ordering::SeqCst) >= self.workers {
                self.has_met.store(true, Ordering::SeqCst);
            }
            hint::spin_loop();
        }
    }

    /// Waits for a while whether more nodes are held than that.
    fn look_for_more(&self) {
        for _ in 0..SOME_TURNS {
            if self.held.load(Ordering::SeqCst) > self.workers {
                self.has_more.store(true, Ordering::SeqCst);
                return;
            }
            hint::spin_loop();
        }
    }
}

impl Gate for Crowd {
    fn enter(&self, _node: u32) {
        if self.entered.fetch_add(1, Ordering::SeqCst) >= 8 {
            return;
        }
        self.held.fetch_add(1, Ordering::SeqCst);
        self.meet();
        self.look_for_more();
        self.held.fetch_sub(1, Ordering::SeqCst);
    }

    fn did(&self, _node: u32, _key: &Key) {}
}

/// Words, and how many threads they have. Without workers four threads have two nodes each.
const WORKERS: [(&str, u64); 4] = [
    ("run --nodes 8 --workers 1", 1),
    ("run --nodes 8 --workers 2", 2),
    ("run --nodes 8 --workers 3", 3),
    ("run --nodes 8", 4),
];

#[test]
fn as_many_nodes_advance_at_once_as_there_are_workers(rt: HostRuntime) -> Result<(), Fail> {
    for (words, workers) in &WORKERS {
        let gate = Crowd::new(*workers);
        assert!(rt; told_at(&rt, words, SPARSE, &gate)?.status == 0, "{words}");
        assert!(rt; gate.has_met.load(Ordering::SeqCst), "{words}");
        assert!(rt; !gate.has_more.load(Ordering::SeqCst), "{words}");
    }
    Ok(())
}
