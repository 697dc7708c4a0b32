//! Lanes that watch what their ends do.
ghost use Rattle.std.specs.Prelude.{◌≡◌, ℕ, ◌≤◌, [], All, IfOk, length, map, vec_capacity};
ghost use Rattle.world_tests.specs.Watched.{IsRoomFor};

use model_core::OutOfMemory;
use release_lanes::{Lanes, NodeEnd, Parcel};
use std::alloc::Global;
use std::sync::Arc;
use std::sync::atomic::{AtomicU64, Ordering};
use std::{hint, mem};

/// What the ends of lanes did, in all cycles.
#[derive(Drop)]
pub struct Watch {
    nodes: u64,
    /// At its first poll in a cycle an end waits for the others to post, for so many turns at most.
    turns: u64,
    /// How many ends have polled for the first time in a cycle, and so have posted.
    came: AtomicU64,
    /// How many of them saw all others come.
    met: AtomicU64,
    polls: AtomicU64,
    taken: AtomicU64,
}

impl Watch {
    /// The ends of so many nodes have done nothing yet.
    pub fn new(nodes: u64, turns: u64) -> Watch {
        Watch {
            nodes,
            turns,
            came: AtomicU64::new(0),
            met: AtomicU64::new(0),
            polls: AtomicU64::new(0),
            taken: AtomicU64::new(0),
        }
    }

    /// How many ends saw all others come to poll in the same cycle.
    pub fn met(&self) -> u64 {
        self.met.load(Ordering::SeqCst)
    }

    /// How often the ends were polled.
    pub fn polls(&self) -> u64 {
        self.polls.load(Ordering::SeqCst)
    }

    /// How many parcels were taken early.
    pub fn taken(&self) -> u64 {
        self.taken.load(Ordering::SeqCst)
    }

    /// How many cycles there were in which all ends have come, if so many have come in all.
    fn cycles(&self, came: u64) -> Option<u64> {
        came.checked_div(self.nodes)
    }

    /// Holds an end until all others have come too.
    fn gather(&self) {
        let cycles = self.cycles(self.came.fetch_add(1, Ordering::SeqCst));
        for _ in 0..self.turns {
            if self.cycles(self.came.load(Ordering::SeqCst)) > cycles {
                self.met.fetch_add(1, Ordering::SeqCst);
                return;
            }
            hint::spin_loop();
        }
    }
}

/// An end that is watched.
#[derive(Drop)]
pub struct WatchedEnd<E> {
    end: E,
    watch: Arc<Watch>,
    has_polled: bool,
}

impl<E: NodeEnd> NodeEnd for WatchedEnd<E> {
    ghost number = { λ w. E.number w.end };

    ghost nodes = { λ w. E.nodes w.end };

    ghost sent = { λ w. E.sent w.end };

    ghost received = { λ w. E.received w.end };

    ghost is_free = { λ w. E.is_free w.end };

    ghost knows_parcel = { λ w. E.knows_parcel w.end };

    ghost is_same = { λ a b. E.is_same a.end b.end };

    fn post(&mut self, to: u32, parcel: Parcel) {
        self.end.post(to, parcel);
    }

    fn early(&mut self) -> Option<Parcel> {
        self.watch.polls.fetch_add(1, Ordering::SeqCst);
        if !self.has_polled {
            self.has_polled = true;
            self.watch.gather();
        }
        let parcel = self.end.early();
        if parcel.is_some() {
            self.watch.taken.fetch_add(1, Ordering::SeqCst);
        }
        parcel
    }

    ghost same_first = { λ w. E.same_first w.end };

    ghost same_then = { λ a b c. E.same_then a.end b.end c.end };

    ghost same_number = { λ a b. E.same_number a.end b.end };

    ghost same_nodes = { λ a b. E.same_nodes a.end b.end };
}

/// The watch, shared so many times more.
fn shared(alloc: Global, watch: &Arc<Watch>, count: usize) -> Result<Vec<Arc<Watch>>, OutOfMemory>
    ensures { IfOk result (λ all. length all.items ≡ count) }
{
    let mut all = Vec::with_capacity(alloc, count)?;
    for _ in 0..count {
        all.push(Arc::clone(watch)?)?;
    }
    Ok(all)
}

/// Gives each of these ends a watch.
fn watch_all<E: Drop>(mut watches: Vec<Arc<Watch>>, ends: Vec<E>, into: &mut Vec<WatchedEnd<E>>)
    requires empty { into.old.items ≡ [] }
    requires many { length ends.items ≤ length watches.items }
    requires room { length ends.items ≤ vec_capacity into.old }
    ensures { map (λ w. w.end) into.new.items ≡ ends.items }
{
    for end in ends {
        let Some(watch) = watches.pop() else {
            unreachable!()
        };
        into.push_reserved(WatchedEnd {
            end,
            watch,
            has_polled: false,
        });
    }
}

/// The ends that were watched.
fn ends_of<E: Drop>(all: Vec<WatchedEnd<E>>, room: &mut Vec<E>)
    requires { IsRoomFor (length all.items) room.old }
    ensures { room.new.items ≡ map (λ w. w.end) all.items }
{
    for watched in all {
        room.push_reserved(watched.end);
    }
}

/// Lanes whose ends are watched.
#[derive(Drop)]
pub struct WatchedLanes<L: Lanes> {
    alloc: Global,
    lanes: L,
    count: usize,
    watch: Arc<Watch>,
    /// Empty, with room for the ends that are handed out.
    room: Vec<L::End>,
}

impl<L: Lanes> WatchedLanes<L> {
    /// These lanes, between so many nodes.
    pub fn new(alloc: Global, lanes: L, nodes: u32, watch: Arc<Watch>) -> WatchedLanes<L>
        requires rest { L.are_at_rest lanes }
        requires nodes { L.nodes lanes ≡ nodes }
        ensures nodes { ⟦<WatchedLanes<L> as Lanes>⟧.nodes result ≡ nodes }
        ensures at_rest { ⟦<WatchedLanes<L> as Lanes>⟧.are_at_rest result }
    {
        WatchedLanes {
            alloc,
            lanes,
            count: nodes as usize,
            watch,
            room: Vec::new(alloc),
        }
    }
}

impl<L: Lanes> Lanes for WatchedLanes<L> {
    ghost use Rattle.std.specs.Prelude.{◌≡◌, length, map};
    ghost use Rattle.world_tests.specs.Watched.{same_room, zip_inner, IsRoomFor};

    type End = WatchedEnd<L::End>;

    ghost nodes = { λ l. L.nodes l.lanes };

    ghost are_out = { λ l ends. L.are_out l.lanes (map (λ w. w.end) ends) × IsRoomFor (length ends) l.room
        × (L.nodes l.lanes ≡ l.count) };

    ghost are_back = { λ l. L.are_back l.lanes × (L.nodes l.lanes ≡ l.count) };

    ghost are_at_rest = { λ l. L.are_at_rest l.lanes × (L.nodes l.lanes ≡ l.count) };

    ghost sent = { λ l. L.sent l.lanes };

    ghost received = { λ l. L.received l.lanes };

    ghost rest = { λ l. L.rest l.lanes };

    fn ready(&mut self, alloc: Global) -> Result<Vec<WatchedEnd<L::End>>, OutOfMemory> {
        let mut watched = Vec::with_capacity(alloc, self.count)?;
        let watches = shared(alloc, &self.watch, self.count)?;
        self.room = Vec::with_capacity(alloc, self.count)?;
        let ends = self.lanes.ready(alloc)?;
        watch_all(watches, ends, &mut watched);
        Ok(watched)
    }

    fn give_back(&mut self, ends: Vec<WatchedEnd<L::End>>)
        requires { L.are_out self.old.lanes (map (λ w. w.end) ends.items) × IsRoomFor (length ends.items) self.old.room × (L.nodes self.old.lanes ≡ self.old.count) }
        ensures nodes { L.nodes self.new.lanes ≡ L.nodes self.old.lanes }
        ensures back { L.are_back self.new.lanes × (L.nodes self.new.lanes ≡ self.new.count) }
        ensures sent { All (λ w. (to : ℕ) → L.sent self.new.lanes (L.End.number w.end) to ≡ L.End.sent w.end to) ends.items }
        ensures received { All (λ w. (from : ℕ) → L.received self.new.lanes from (L.End.number w.end) ≡ L.End.received w.end from) ends.items }
    {
        let mut room = mem::replace(&mut self.room, Vec::new(self.alloc));
        ends_of(ends, &mut room);
        self.lanes.give_back(room);
    }

    fn rest(&mut self, to: u32) -> Option<Parcel> {
        self.lanes.rest(to)
    }

    ghost lane = { λ l back. L.lane l.lanes back.0 };

    ghost at_rest = { λ l. (
      λ now. let is = (L.at_rest l.lanes).0 now.0 in ((is.0, now.1), is.1),
      λ now. ((L.at_rest l.lanes).1 (now.0.0, now.1), now.0.1),
    ) };

    ghost stay_out = { λ l old new out same.
        let all = zip_inner (λ w. w.end) (L.End.is_same) old new same in
        (L.stay_out l.lanes (map (λ w. w.end) old) (map (λ w. w.end) new) out.0 all.0, same_room l.room old new all.1 out.1, out.2) };
}
