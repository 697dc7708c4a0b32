//! What the threads of a run do, as gates are told.
use super::told_at;
use event_key::Key;
use model_program::Gate;
use std::alloc::{AllocGlobal, Global};
use std::hint;
use std::process::Abort;
use std::sync::atomic::{AtomicBool, AtomicU64, Ordering};
use std::test::Fail;
use std::thread::Threads;
use test_texts::wanted::{FALSE_FAULT_TEXT, SHOP_TEXT};
use test_texts::{FALSE_FAULT, LONGER_TIE, SHOP};

/// How often a gate asks before it gives up.
const TURNS: u64 = 200_000_000;

/// Whether a flag is raised before a gate gives up.
fn is_raised(flag: &AtomicBool) -> bool {
    for _ in 0..TURNS {
        if flag.load(Ordering::SeqCst) {
            return true;
        }
        hint::spin_loop();
    }
    false
}

/// Holds the first entry of each of two nodes until the other has entered.
#[derive(Drop)]
struct Meet {
    zero_came: AtomicBool,
    one_came: AtomicBool,
    zero_met: AtomicBool,
    one_met: AtomicBool,
    told: AtomicU64,
    astray: AtomicU64,
    /// The object whose events belong to node 1.
    object: u32,
}

impl Meet {
    fn new(object: u32) -> Meet {
        Meet {
            zero_came: AtomicBool::new(false),
            one_came: AtomicBool::new(false),
            zero_met: AtomicBool::new(false),
            one_met: AtomicBool::new(false),
            told: AtomicU64::new(0),
            astray: AtomicU64::new(0),
            object,
        }
    }
}

impl Gate for Meet {
    fn enter(&self, node: u32) {
        if node == 0 && !self.zero_came.swap(true, Ordering::SeqCst) {
            self.zero_met
                .store(is_raised(&self.one_came), Ordering::SeqCst);
        }
        if node == 1 && !self.one_came.swap(true, Ordering::SeqCst) {
            self.one_met
                .store(is_raised(&self.zero_came), Ordering::SeqCst);
        }
    }

    fn did(&self, node: u32, key: &Key) {
        self.told.fetch_add(1, Ordering::SeqCst);
        let home = if key.dest == self.object { 1 } else { 0 };
        if node != home {
            self.astray.fetch_add(1, Ordering::SeqCst);
        }
    }
}

/// Words, and the object that they put on node 1: the station in round placement, the sink in blocks.
const PLACED: [(&str, u32); 2] = [
    ("run --nodes 2 --placement round", 1),
    ("run --nodes 2 --placement block", 2),
];

#[test]
fn two_nodes_run_at_once_each_with_its_own_objects(rt: HostRuntime) -> Result<(), Fail> {
    for (words, object) in &PLACED {
        let gate = Meet::new(*object);
        let run = told_at(&rt, words, SHOP, &gate)?;
        run.expect(0, SHOP_TEXT, "", words)?;
        assert!(rt; gate.zero_met.load(Ordering::SeqCst));
        assert!(rt; gate.one_met.load(Ordering::SeqCst));
        assert!(rt; gate.told.load(Ordering::SeqCst) >= 12);
        assert!(rt; gate.astray.load(Ordering::SeqCst) == 0);
    }
    Ok(())
}

/// Keeps the stamps of the events that one node processes.
#[derive(Drop)]
struct Trace {
    node: u32,
    next: AtomicU64,
    stamps: Vec<AtomicU64>,
}

impl Trace {
    fn new(alloc: Global, node: u32) -> Result<Trace, Fail> {
        let mut stamps = Vec::new(alloc);
        for _ in 0..32 {
            stamps.push(AtomicU64::new(0))?;
        }
        Ok(Trace {
            node,
            next: AtomicU64::new(0),
            stamps,
        })
    }

    /// The tick and the step of each.
    fn told(&self, alloc: Global) -> Result<Vec<(u64, u64)>, Fail> {
        let count = self.next.load(Ordering::SeqCst) as usize;
        let mut told = Vec::new(alloc);
        for stamp in self.stamps.iter().take(count) {
            let stamp = stamp.load(Ordering::SeqCst);
            told.push((stamp / 65_536, stamp % 65_536))?;
        }
        Ok(told)
    }
}

impl Gate for Trace {
    fn enter(&self, _node: u32) {}

    fn did(&self, node: u32, key: &Key) {
        if node == self.node {
            let place = self.next.fetch_add(1, Ordering::SeqCst) as usize;
            if let Some(stamp) = self.stamps.get(place) {
                stamp.store(key.stamp, Ordering::SeqCst);
            }
        }
    }
}

/// Words and a model, the text of the run, and the ticks and steps of the events that one of its nodes processes, in this
/// order.
struct Traced {
    words: &'static str,
    model: &'static str,
    text: &'static str,
    node: u32,
    stamps: &'static [(u64, u64)],
}

/// The run has this text, and its node processes just these events.
fn assert_traced<R: Abort + AllocGlobal + Threads + Sync>(
    rt: &R,
    traced: &Traced,
) -> Result<(), Fail> {
    let alloc = rt.alloc();
    let gate = Trace::new(alloc, traced.node)?;
    let run = told_at(rt, traced.words, traced.model, &gate)?;
    run.expect(0, traced.text, "", traced.words)?;
    assert!(rt;
        gate.told(alloc)?.as_slice() == traced.stamps,
        "{}",
        traced.words
    );
    Ok(())
}

/// The text of `LONGER_TIE`.
const LONGER_TIE_TEXT: &str = "0.0 p1 hop 5 2
5.0 p0 hop 5 1
5.0 p2 hop 5 0
10.0 p0 hop 5 1
10.0 p1 hop 5 2
15.0 p1 hop 5 2
15.0 p2 hop 5 0
20.0 p0 hop 5 1
20.0 p2 hop 5 0
end 20 events 9
";

/// What a node does that doesn't run ahead, and one that does, at a station that meets a fault only where it runs ahead: it
/// processes again what a straggler undid.
const STRAGGLERS: [Traced; 2] = [
    Traced {
        words: "run --nodes 1 --ahead 0",
        model: FALSE_FAULT,
        text: FALSE_FAULT_TEXT,
        node: 0,
        stamps: &[
            (5, 0),
            (9, 0),
            (9, 1),
            (10, 0),
            (11, 0),
            (14, 0),
            (14, 1),
            (18, 0),
            (18, 1),
        ],
    },
    Traced {
        words: "run --nodes 1 --ahead 8",
        model: FALSE_FAULT,
        text: FALSE_FAULT_TEXT,
        node: 0,
        stamps: &[
            (5, 0),
            (10, 0),
            (11, 0),
            (9, 0),
            (10, 0),
            (11, 0),
            (9, 1),
            (14, 0),
            (14, 1),
            (18, 0),
            (18, 1),
        ],
    },
];

/// The source goes to node 1 after the first cycle, the station to node 2 after the second, the sink to node 0 after the
/// third. What node 2 does at 7.0 it undoes once the third job has come.
const BY_TURN: [Traced; 3] = [
    Traced {
        words: "run --nodes 3 --moves turn",
        model: SHOP,
        text: SHOP_TEXT,
        node: 0,
        stamps: &[(1, 0), (4, 1), (7, 1), (10, 1)],
    },
    Traced {
        words: "run --nodes 3 --moves turn",
        model: SHOP,
        text: SHOP_TEXT,
        node: 1,
        stamps: &[(1, 1), (3, 0), (5, 0)],
    },
    Traced {
        words: "run --nodes 3 --moves turn",
        model: SHOP,
        text: SHOP_TEXT,
        node: 2,
        stamps: &[(3, 1), (4, 0), (7, 0), (5, 1), (7, 0), (10, 0)],
    },
];

/// After the first cycle node 0 has both events and two objects. So p0 goes to node 1, with the event that it has processed at
/// 5, and back after the second cycle; and to node 1 again after the fourth.
const BY_LOAD: [Traced; 2] = [
    Traced {
        words: "run --nodes 2 --moves load",
        model: LONGER_TIE,
        text: LONGER_TIE_TEXT,
        node: 0,
        stamps: &[(5, 0), (5, 0), (10, 0), (15, 0), (20, 0)],
    },
    Traced {
        words: "run --nodes 2 --moves load",
        model: LONGER_TIE,
        text: LONGER_TIE_TEXT,
        node: 1,
        stamps: &[(0, 0), (10, 0), (15, 0), (20, 0)],
    },
];

/// Each of these runs is as it says.
fn assert_all_traced<R: Abort + AllocGlobal + Threads + Sync>(
    rt: &R,
    all: &[Traced],
) -> Result<(), Fail> {
    for traced in all {
        assert_traced(rt, traced)?;
    }
    Ok(())
}

#[test]
fn nodes_process_again_what_was_undone_and_what_moved_to_them(rt: HostRuntime) -> Result<(), Fail> {
    assert_all_traced(&rt, &STRAGGLERS)?;
    assert_all_traced(&rt, &BY_TURN)?;
    assert_all_traced(&rt, &BY_LOAD)
}

/// Holds the first entry of node 1 until node 0 has processed an event, and keeps the stamps of node 1.
#[derive(Drop)]
struct Behind {
    came: AtomicBool,
    ahead: AtomicBool,
    zero: Trace,
    one: Trace,
}

impl Gate for Behind {
    fn enter(&self, node: u32) {
        if node == 1 && !self.came.swap(true, Ordering::SeqCst) {
            let _seen = is_raised(&self.ahead);
        }
    }

    fn did(&self, node: u32, key: &Key) {
        self.zero.did(node, key);
        self.one.did(node, key);
        if node == 0 {
            self.ahead.store(true, Ordering::SeqCst);
        }
    }
}

#[test]
fn a_node_stops_where_the_other_offers_less(rt: HostRuntime) -> Result<(), Fail> {
    let alloc = rt.alloc();
    let model = "format = 1
model = \"phold\"
end = 6

[phold]
objects = 2
delay = { law = \"fixed\", value = 5 }
to = \"next\"
start = [ { time = 0, at = 0 }, { time = 2, at = 1 }, { time = 6, at = 1 } ]
";
    let gate = Behind {
        came: AtomicBool::new(false),
        ahead: AtomicBool::new(false),
        zero: Trace::new(alloc, 0)?,
        one: Trace::new(alloc, 1)?,
    };
    let words = "run --nodes 2 --ahead 0";
    let text = "0.0 p0 hop 5 1\n2.0 p1 hop 5 0\n5.0 p1 hop 5 0\n6.0 p1 hop 5 0\nend 6 events 4\n";
    told_at(&rt, words, model, &gate)?.expect(0, text, "", words)?;
    assert!(rt; gate.zero.told(alloc)?.as_slice() == [(0, 0)].as_slice());
    assert!(rt; gate.one.told(alloc)?.as_slice() == [(2, 0), (5, 0), (6, 0)].as_slice());
    Ok(())
}

/// Holds the first entry of node 0 until node 2 has entered, and keeps whether it saw that.
#[derive(Drop)]
struct Stick {
    held: AtomicBool,
    came: AtomicBool,
    seen: AtomicBool,
}

impl Stick {
    fn new() -> Stick {
        Stick {
            held: AtomicBool::new(false),
            came: AtomicBool::new(false),
            seen: AtomicBool::new(false),
        }
    }
}

impl Gate for Stick {
    fn enter(&self, node: u32) {
        if node == 2 {
            self.came.store(true, Ordering::SeqCst);
        }
        if node == 0 && !self.held.swap(true, Ordering::SeqCst) {
            self.seen.store(is_raised(&self.came), Ordering::SeqCst);
        }
    }

    fn did(&self, _node: u32, _key: &Key) {}
}

// The turn of node 2 begins behind that of node 0, so node 0 sees node 2 enter only where another worker steals its turn.
#[test]
fn a_turn_that_waits_behind_another_is_stolen(rt: HostRuntime) -> Result<(), Fail> {
    let gate = Stick::new();
    let words = "run --nodes 4 --workers 2";
    told_at(&rt, words, SHOP, &gate)?.expect(0, SHOP_TEXT, "", words)?;
    assert!(rt; gate.seen.load(Ordering::SeqCst));
    Ok(())
}
