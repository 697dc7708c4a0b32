//! What no clause says: that calls succeed, and what threads see of one another.
ghost use Rattle.std.specs.Prelude.{◌≡◌, ◌<◌, ◌^◌, [], ◌∷◌, ℕ, All, length, map, IfOk, OnOk};
ghost use Rattle.std.specs.List.{AllZip, range_with_len};
ghost use Rattle.parcel_exchange.specs.Team.{HaveAllCome, HaveExchanged, handed_to};

use super::one_event;
use event_chain::Chain;
use model_core::Event;
use parcel_exchange::{Inbox, OutOfMemory, receive_all};
use release_lanes::{Lanes, NodeEnd, PlainLanes, RingEnd, RingLanes};
use std::alloc::Global;
use std::process::Abort;
use std::test::Fail;
use std::thread;
use std::thread::Threads;

/// Each node posts what it hands out. Nothing runs beside it, so it polls for nothing.
fn post_each<E: NodeEnd>(ends: &mut [E], outs: &mut [Vec<Chain<Event>>], inboxes: &mut [Inbox])
    requires numbers { map E.number ends.old ≡ range_with_len 0 (length inboxes.old) }
    requires ends { length ends.old ≡ length inboxes.old }
    requires count { All (λ end. E.nodes end ≡ length inboxes.old) ends.old }
    requires free { All (λ end. (to : ℕ) → to < length inboxes.old → E.is_free end to) ends.old }
    requires many { length outs.old ≡ length inboxes.old }
    requires small { length inboxes.old < 2 ^ 32 }
    requires long { All (λ out. length out.items ≡ length inboxes.old) outs.old }
    requires early { All (λ inbox. inbox.early.items ≡ []) inboxes.old }
    requires arrived { All (λ inbox. inbox.arrived ≡ []) inboxes.old }
    ensures same { AllZip E.is_same ends.old ends.new }
    ensures exchanged { HaveExchanged E.sent E.received (λ out. out.items) outs.old inboxes.new ends.old ends.new }
    ensures arrived { All (λ inbox. inbox.arrived ≡ []) inboxes.new }
{
    for k in 0..inboxes.len() {
        inboxes[k].exchange(&mut ends[k], k as u32, outs[k].as_mut_slice(), 0);
    }
}

/// What all nodes hand out arrives, on one thread.
fn cycle<L: Lanes>(
    alloc: Global,
    lanes: &mut L,
    outs: &mut [Vec<Chain<Event>>],
    inboxes: &mut [Inbox],
) -> Result<(), OutOfMemory>
    requires rest { L.are_at_rest lanes.old }
    requires nodes { L.nodes lanes.old ≡ length inboxes.old }
    requires many { length outs.old ≡ length inboxes.old }
    requires small { length inboxes.old < 2 ^ 32 }
    requires long { All (λ out. length out.items ≡ length inboxes.old) outs.old }
    requires few { (to : ℕ) → to < length inboxes.old → length (handed_to (λ out. out.items) to outs.old) < 2 ^ 60 }
    requires early { All (λ inbox. inbox.early.items ≡ []) inboxes.old }
    requires arrived { All (λ inbox. inbox.arrived ≡ []) inboxes.old }
    ensures rest { L.are_at_rest lanes.new }
    ensures nodes { L.nodes lanes.new ≡ L.nodes lanes.old }
    ensures arrived { OnOk result (HaveAllCome (λ out. out.items) outs.old inboxes.new) }
{
    let mut ends = lanes.ready(alloc)?;
    post_each(ends.as_mut_slice(), outs, inboxes);
    lanes.give_back(ends);
    receive_all(lanes, inboxes);
    Ok(())
}

/// What a node hands out to node 0 and to node 1.
fn out_of_two(
    alloc: Global,
    first: Chain<Event>,
    second: Chain<Event>,
) -> Result<Vec<Chain<Event>>, OutOfMemory>
    ensures { IfOk result (λ out. out.items ≡ first ∷ second ∷ []) }
{
    let mut out = Vec::with_capacity(alloc, 2)?;
    out.push(first)?;
    out.push(second)?;
    Ok(out)
}

/// Of two nodes the first sends to the second, and the second to both: what arrives is counted at both.
fn round<L: Lanes>(alloc: Global, lanes: &mut L) -> Result<(usize, usize), Fail>
    requires rest { L.are_at_rest lanes.old }
    requires nodes { L.nodes lanes.old ≡ 2 }
    ensures rest { L.are_at_rest lanes.new }
    ensures nodes { L.nodes lanes.new ≡ 2 }
{
    let mut inboxes = [Inbox::new(alloc, 2)?, Inbox::new(alloc, 2)?];
    let first = out_of_two(alloc, Chain::new(), one_event(alloc, 1)?)?;
    let second = out_of_two(alloc, one_event(alloc, 2)?, one_event(alloc, 3)?)?;
    let mut outs = [first, second];
    cycle(alloc, lanes, &mut outs, &mut inboxes)?;
    Ok((inboxes[0].arrived.len(), inboxes[1].arrived.len()))
}

/// Three rounds over the same lanes.
fn rounds<L: Lanes>(rt: &impl Abort, alloc: Global, lanes: &mut L) -> Result<(), Fail>
    requires rest { L.are_at_rest lanes.old }
    requires nodes { L.nodes lanes.old ≡ 2 }
{
    for _ in 0..3 {
        let (first, second) = round(alloc, lanes)?;
        assert!(rt; first == 1);
        assert!(rt; second == 2);
    }
    Ok(())
}

#[test]
fn all_arrives_cycle_after_cycle_by_slots(rt: HostRuntime) -> Result<(), Fail> {
    rounds(&rt, rt.alloc(), &mut PlainLanes::new(rt.alloc(), 2)?)
}

#[test]
fn all_arrives_cycle_after_cycle_by_rings(rt: HostRuntime) -> Result<(), Fail> {
    rounds(&rt, rt.alloc(), &mut RingLanes::new(rt.alloc(), 2)?)
}

/// Polls until a parcel is there. No wait: it gives up after many polls.
fn poll(inbox: &mut Inbox, end: &mut RingEnd)
    requires { inbox.old.early.items ≡ [] }
{
    for _ in 0..200_000_000u32 {
        if inbox.early.len() > 0 {
            return;
        }
        inbox.take_early(end, 1);
    }
}

/// One thread posts what node 0 hands out, and another one polls at node 1.
fn exchange_and_poll<R: Threads + Sync>(
    rt: &R,
    sender: &mut Inbox,
    left: &mut RingEnd,
    out: &mut [Chain<Event>],
    receiver: &mut Inbox,
    right: &mut RingEnd,
)
    requires sender { sender.old.early.items ≡ [] }
    requires receiver { receiver.old.early.items ≡ [] }
    requires number { ⟦<RingEnd as NodeEnd>⟧.number left.old ≡ 0 }
    requires nodes { ⟦<RingEnd as NodeEnd>⟧.nodes left.old ≡ length out.old }
    requires few { length out.old < 2 ^ 32 }
    requires free { (to : ℕ) → to < length out.old → ⟦<RingEnd as NodeEnd>⟧.is_free left.old to }
{
    thread::join(
        rt,
        || sender.exchange(left, 0, out, 0),
        || poll(receiver, right),
    );
}

#[test]
fn a_thread_takes_early_what_another_posts(rt: HostRuntime) -> Result<(), Fail> {
    let alloc = rt.alloc();
    let mut lanes = RingLanes::new(alloc, 2)?;
    let mut ends = lanes.ready(alloc)?;
    assert!(rt; ends.len() == 2);
    let mut sender = Inbox::new(alloc, 2)?;
    let mut receiver = Inbox::new(alloc, 2)?;
    let mut out = out_of_two(alloc, Chain::new(), one_event(alloc, 9)?)?;
    let (left, right) = ends.as_mut_slice().split_at_mut(1);
    exchange_and_poll(
        &rt,
        &mut sender,
        &mut left[0],
        out.as_mut_slice(),
        &mut receiver,
        &mut right[0],
    );
    assert!(rt; receiver.early.len() == 1);
    assert!(rt; receiver.early[0].from == 0);
    assert!(rt;
        receiver.early[0]
            .events
            .front()
            .is_some_and(|event| event.kind == 9)
    );
    Ok(())
}
