//! How nodes receive what has come to them.
ghost use Rattle.std.specs.Prelude.{◌<◌, length, OnOk};
ghost use Rattle.node_team.specs.Receipts.{CanReceiveAll, HaveReceivedAll};

use cycle_core::receive;
use event_chain::Chain;
use model_core::OutOfMemory;
use model_core::model::Model as SimulationModel;
use node_core::Node;
use parcel_exchange::Inbox;
use std::alloc::Global;
use std::mem;
use std::thread::{Threads, join_mut};

/// How nodes receive.
#[derive(Clone, Copy)]
pub struct Receipt {
    pub alloc: Global,
    /// So many nodes at most, at least one, receive in one thread. More of them are halved.
    pub most: usize,
}

/// Hands each node what has come to it, and leaves its inbox empty, one after another, on the calling thread.
fn receive_in_turn<M: SimulationModel>(
    alloc: Global,
    nodes: &mut [Node<M>],
    inboxes: &mut [Inbox],
) -> Result<(), OutOfMemory>
    requires { CanReceiveAll M.meaning nodes.old inboxes.old }
    ensures { OnOk result (HaveReceivedAll M.meaning nodes.old inboxes.old nodes.new inboxes.new) }
{
    for i in 0..nodes.len() {
        let events = mem::replace(&mut inboxes[i].arrived, Chain::new());
        receive(alloc, &mut nodes[i], events)?;
    }
    Ok(())
}

/// Hands each node what has come to it, and leaves its inbox empty. Of more nodes than one thread serves both halves receive side
/// by side.
#[cycle(halves)]
pub fn receive_arrived<R: Threads + Sync, M: SimulationModel>(
    rt: &R,
    receipt: &Receipt,
    nodes: &mut [Node<M>],
    inboxes: &mut [Inbox],
) -> Result<(), OutOfMemory>
    requires most { 0 < receipt.now.most }
    requires can { CanReceiveAll M.meaning nodes.old inboxes.old }
    ensures { OnOk result (HaveReceivedAll M.meaning nodes.old inboxes.old nodes.new inboxes.new) }
{
    if nodes.len() <= receipt.most {
        return receive_in_turn(receipt.alloc, nodes, inboxes);
    }
    let half = nodes.len() / 2;
    let (n1, n2) = nodes.split_at_mut(half);
    let (i1, i2) = inboxes.split_at_mut(half);
    receive_both(rt, receipt, n1, i1, n2, i2)
}

/// Two rows of nodes receive side by side, each with an inbox for each node.
#[cycle(halves)]
fn receive_both<R: Threads + Sync, M: SimulationModel>(
    rt: &R,
    receipt: &Receipt,
    n1: &mut [Node<M>],
    i1: &mut [Inbox],
    n2: &mut [Node<M>],
    i2: &mut [Inbox],
) -> Result<(), OutOfMemory>
    requires most { 0 < receipt.now.most }
    requires sizes { (0 < length n1.old) × (0 < length n2.old) }
    requires low { CanReceiveAll M.meaning n1.old i1.old }
    requires high { CanReceiveAll M.meaning n2.old i2.old }
    ensures low { OnOk result (HaveReceivedAll M.meaning n1.old i1.old n1.new i1.new) }
    ensures high { OnOk result (HaveReceivedAll M.meaning n2.old i2.old n2.new i2.new) }
{
    let mut first = || -> Result<(), OutOfMemory>
        requires { (0 < receipt.now.most) × CanReceiveAll M.meaning n1.now i1.now }
        ensures { OnOk result (HaveReceivedAll M.meaning n1.entry.now i1.entry.now n1.exit.now i1.exit.now) }
    { receive_arrived(rt, receipt, n1, i1) };
    let mut second = || -> Result<(), OutOfMemory>
        requires { (0 < receipt.now.most) × CanReceiveAll M.meaning n2.now i2.now }
        ensures { OnOk result (HaveReceivedAll M.meaning n2.entry.now i2.entry.now n2.exit.now i2.exit.now) }
    { receive_arrived(rt, receipt, n2, i2) };
    let (front, back) = join_mut(rt, &mut first, &mut second);
    front.and(back)
}
