//! How nodes release what is due: each commits, and its end posts what that sends.
ghost use Rattle.std.specs.Prelude.{◌≡◌, ◌<◌, ◌^◌, [], ℕ, length, OnOk};
ghost use Rattle.std.specs.Thread.{IsSend, IsSync};
ghost use Rattle.cycle_core.specs.Blank.{AreBlank};
ghost use Rattle.cycle_core.specs.Cuts.{CanEnd};
ghost use Rattle.cycle_core.specs.Places.{AtEach};
ghost use Rattle.node_team.specs.Desks.{desk_of, desks_of, CanRelease, CanServe, HasReleased, HaveServed};
ghost use Rattle.node_team.specs.Readiness.{IsReady};
ghost use Rattle.node_team.specs.Releases.{HasPosted, HaveCome};

use crate::kept::Kept;
use crate::setting::Setting;
use event_key::Key;
use model_core::OutOfMemory;
use model_core::model::Model as SimulationModel;
use node_core::{Committed, Node};
use parcel_exchange::{Inbox, receive_all};
use release_lanes::{Lanes, NodeEnd};
use std::thread::{Threads, join_mut};

/// What is due at the end of a cycle, and how it is released.
#[derive(Clone, Copy)]
pub struct Due {
    /// The horizon.
    pub bound: u64,
    /// The first event that isn't committed, where there is a cut.
    pub below: Option<Key>,
    /// So many nodes at most, at least one, release in one thread. More of them are halved.
    pub most: usize,
}

impl Due {
    /// How many times the end of each of so many nodes polls. It would find nothing unless others post beside it.
    fn polls(&self, nodes: usize) -> usize {
        if nodes <= self.most { 0 } else { nodes }
    }
}

/// Some nodes that stand in a row, and for each of them its end of the lanes, what it commits, and its inbox.
struct Part<'a, M: SimulationModel, E: NodeEnd> {
    nodes: &'a mut [Node<M>],
    ends: &'a mut [E],
    committed: &'a mut [Committed],
    inboxes: &'a mut [Inbox],
}

/// Posts what a commit hands out, and polls so many times for what has come by then.
fn post<E: NodeEnd>(
    end: &mut E,
    number: u32,
    commit: &mut Committed,
    inbox: &mut Inbox,
    polls: usize,
)
    requires empty { inbox.old.early.items ≡ [] }
    requires number { E.number end.old ≡ number }
    requires nodes { E.nodes end.old ≡ length commit.old.out.items }
    requires few { length commit.old.out.items < 2 ^ 32 }
    requires free { (to : ℕ) → to < length commit.old.out.items → E.is_free end.old to }
    ensures { HasPosted E.NodeEnd number commit.old commit.new inbox.old inbox.new end.old end.new }
{
    inbox.exchange(end, number, commit.out.as_mut_slice(), polls);
}

/// A node commits what is due, its end posts what that sends, and its inbox takes what has come by then.
fn release<M: SimulationModel, E: NodeEnd>(
    due: &Due,
    node: &mut Node<M>,
    end: &mut E,
    commit: &mut Committed,
    inbox: &mut Inbox,
) -> Result<(), OutOfMemory>
    requires { CanRelease E.NodeEnd M.meaning due.now (desk_of node.old end.old commit.old inbox.old) }
    ensures { OnOk result (HasReleased E.NodeEnd M.meaning due.now
        (desk_of node.old end.old commit.old inbox.old) (desk_of node.new end.new commit.new inbox.new)) }
{
    node.commit(due.bound, due.below, commit)?;
    let polls = due.polls(commit.out.len());
    post(end, node.number(), commit, inbox, polls);
    Ok(())
}

/// Releases at some nodes, one after another, on the calling thread.
fn release_in_turn<M: SimulationModel, E: NodeEnd>(
    due: &Due,
    nodes: &mut [Node<M>],
    ends: &mut [E],
    committed: &mut [Committed],
    inboxes: &mut [Inbox],
) -> Result<(), OutOfMemory>
    requires { CanServe E.NodeEnd M.meaning due.now (desks_of nodes.old ends.old committed.old inboxes.old) }
    ensures { OnOk result (HaveServed E.NodeEnd M.meaning due.now
        (desks_of nodes.old ends.old committed.old inboxes.old) (desks_of nodes.new ends.new committed.new inboxes.new)) }
{
    for i in 0..nodes.len() {
        release(
            due,
            &mut nodes[i],
            &mut ends[i],
            &mut committed[i],
            &mut inboxes[i],
        )?;
    }
    Ok(())
}

/// Releases at some nodes. Of more than one thread serves both halves release side by side. No node is moved: the lists
/// are halved where they stand.
#[cycle(halves)]
fn release_in_parts<R: Threads + Sync, M: SimulationModel, E: NodeEnd>(
    rt: &R,
    due: &Due,
    nodes: &mut [Node<M>],
    ends: &mut [E],
    committed: &mut [Committed],
    inboxes: &mut [Inbox],
) -> Result<(), OutOfMemory>
    requires most { 0 < due.now.most }
    requires can { CanServe E.NodeEnd M.meaning due.now (desks_of nodes.old ends.old committed.old inboxes.old) }
    ensures { OnOk result (HaveServed E.NodeEnd M.meaning due.now
        (desks_of nodes.old ends.old committed.old inboxes.old) (desks_of nodes.new ends.new committed.new inboxes.new)) }
{
    if nodes.len() <= due.most {
        return release_in_turn(due, nodes, ends, committed, inboxes);
    }
    let half = nodes.len() / 2;
    let (n1, n2) = nodes.split_at_mut(half);
    let (e1, e2) = ends.split_at_mut(half);
    let (c1, c2) = committed.split_at_mut(half);
    let (i1, i2) = inboxes.split_at_mut(half);
    let low = Part {
        nodes: n1,
        ends: e1,
        committed: c1,
        inboxes: i1,
    };
    let high = Part {
        nodes: n2,
        ends: e2,
        committed: c2,
        inboxes: i2,
    };
    release_both(rt, due, low, high)
}

/// Releases at two parts side by side.
#[cycle(halves)]
fn release_both<R: Threads + Sync, M: SimulationModel, E: NodeEnd>(
    rt: &R,
    due: &Due,
    low: Part<M, E>,
    high: Part<M, E>,
) -> Result<(), OutOfMemory>
    requires most { 0 < due.now.most }
    requires sizes { (0 < length low.nodes.now) × (0 < length high.nodes.now) }
    requires low { CanServe E.NodeEnd M.meaning due.now (desks_of low.nodes.now low.ends.now low.committed.now low.inboxes.now) }
    requires high { CanServe E.NodeEnd M.meaning due.now (desks_of high.nodes.now high.ends.now high.committed.now high.inboxes.now) }
    ensures low { OnOk result (HaveServed E.NodeEnd M.meaning due.now
        (desks_of low.entry.nodes.now low.entry.ends.now low.entry.committed.now low.entry.inboxes.now)
        (desks_of low.exit.0.now low.exit.1.0.now low.exit.1.1.0.now low.exit.1.1.1.0.now)) }
    ensures high { OnOk result (HaveServed E.NodeEnd M.meaning due.now
        (desks_of high.entry.nodes.now high.entry.ends.now high.entry.committed.now high.entry.inboxes.now)
        (desks_of high.exit.0.now high.exit.1.0.now high.exit.1.1.0.now high.exit.1.1.1.0.now)) }
{
    let Part {
        nodes: n1,
        ends: e1,
        committed: c1,
        inboxes: i1,
    } = low;
    let Part {
        nodes: n2,
        ends: e2,
        committed: c2,
        inboxes: i2,
    } = high;
    let mut first = || -> Result<(), OutOfMemory>
        requires { IsSync R.row × IsSend M.row × IsSync M.row × IsSend E.row × (0 < due.now.most)
            × CanServe E.NodeEnd M.meaning due.now (desks_of n1.now e1.now c1.now i1.now) }
        ensures { OnOk result (HaveServed E.NodeEnd M.meaning due.entry.now
            (desks_of n1.entry.now e1.entry.now c1.entry.now i1.entry.now) (desks_of n1.exit.now e1.exit.now c1.exit.now i1.exit.now)) }
    { release_in_parts(rt, due, n1, e1, c1, i1) };
    let mut second = || -> Result<(), OutOfMemory>
        requires { IsSync R.row × IsSend M.row × IsSync M.row × IsSend E.row × (0 < due.now.most)
            × CanServe E.NodeEnd M.meaning due.now (desks_of n2.now e2.now c2.now i2.now) }
        ensures { OnOk result (HaveServed E.NodeEnd M.meaning due.entry.now
            (desks_of n2.entry.now e2.entry.now c2.entry.now i2.entry.now) (desks_of n2.exit.now e2.exit.now c2.exit.now i2.exit.now)) }
    { release_in_parts(rt, due, n2, e2, c2, i2) };
    let (front, back) = join_mut(rt, &mut first, &mut second);
    front.and(back)
}

/// All nodes of a world release what is due through their lanes, and what comes to each of them arrives in its inbox.
pub fn release_all<R: Threads + Sync, M: SimulationModel, L: Lanes, G>(
    setting: &Setting<R, G>,
    due: &Due,
    nodes: &mut [Node<M>],
    committed: &mut [Committed],
    kept: &mut Kept<L>,
) -> Result<(), OutOfMemory>
    requires most { 0 < due.now.most }
    requires can { CanEnd M.meaning due.now.bound due.now.below nodes.old }
    requires numbered { AtEach (λ place n. n.number ≡ place) nodes.old }
    requires few { length nodes.old < 2 ^ 32 }
    requires blank { AreBlank (length nodes.old) committed.old }
    requires ready { IsReady L.nodes L.are_at_rest (length nodes.old) kept.old }
    ensures come { OnOk result (HaveCome M.meaning due.now.bound due.now.below nodes.old nodes.new committed.new kept.new.inboxes.items) }
    ensures rest { OnOk result (L.are_at_rest kept.new.lanes) }
    ensures wide { OnOk result (L.nodes kept.new.lanes ≡ length nodes.old) }
{
    let mut ends = kept.lanes.ready(setting.alloc)?;
    release_in_parts(
        setting.rt,
        due,
        nodes,
        ends.as_mut_slice(),
        committed,
        kept.inboxes.as_mut_slice(),
    )?;
    kept.lanes.give_back(ends);
    receive_all(&mut kept.lanes, kept.inboxes.as_mut_slice());
    Ok(())
}
