//! What no clause says: that calls succeed, and what threads see of one another.
ghost use Rattle.std.specs.Prelude.{◌≡◌, ◌<◌, IfOk};

use super::one_event;
use event_chain::Chain;
use model_core::Event;
use release_lanes::{Lanes, NodeEnd, OutOfMemory, Parcel, PlainLanes, RingEnd, RingLanes};
use std::alloc::Global;
use std::process::Abort;
use std::test::Fail;
use std::thread;
use std::thread::Threads;

/// Node 0 posts to both nodes, and what node 1 receives is what was posted to it.
fn delivered<L: Lanes>(
    alloc: Global,
    lanes: &mut L,
    events: Chain<Event>,
) -> Result<Parcel, OutOfMemory>
    requires nodes { L.nodes lanes.old ≡ 2 }
    requires at_rest { L.are_at_rest lanes.old }
    ensures { IfOk result (λ parcel. (parcel.from ≡ 0) × (parcel.events ≡ events)) }
{
    let mut ends = lanes.ready(alloc)?;
    let none = Chain::new();
    ends[0].post(
        0,
        Parcel {
            from: 0,
            events: none,
        },
    );
    ends[0].post(1, Parcel { from: 0, events });
    lanes.give_back(ends);
    let Some(parcel) = lanes.rest(1) else {
        unreachable!()
    };
    Ok(parcel)
}

/// Whether the first event of a parcel has this kind.
fn is_of_kind(parcel: &Parcel, kind: u32) -> bool {
    parcel
        .events
        .front()
        .is_some_and(|event| event.kind == kind)
}

/// Whether a parcel of node 0 has one event, which has this kind.
fn is_one_of_kind(parcel: &Parcel, kind: u32) -> bool {
    parcel.from == 0 && parcel.events.len() == 1 && is_of_kind(parcel, kind)
}

/// Node 0 posts to node 1, which receives it after the ends are given back.
fn hands_over<L: Lanes>(rt: &impl Abort, alloc: Global, lanes: &mut L) -> Result<(), Fail>
    requires nodes { L.nodes lanes.old ≡ 2 }
    requires at_rest { L.are_at_rest lanes.old }
{
    let mut ends = lanes.ready(alloc)?;
    assert_eq!(rt; ends.len(), 2);
    let events = one_event(alloc, 7)?;
    ends[0].post(1, Parcel { from: 0, events });
    lanes.give_back(ends);
    let came = lanes.rest(1);
    assert!(rt; came.is_some_and(|parcel| is_one_of_kind(&parcel, 7)));
    assert!(rt; lanes.rest(1).is_none());
    assert!(rt; lanes.rest(0).is_none());
    Ok(())
}

/// What is delivered is what was posted.
fn delivers<L: Lanes>(rt: &impl Abort, alloc: Global, lanes: &mut L) -> Result<(), Fail>
    requires nodes { L.nodes lanes.old ≡ 2 }
    requires at_rest { L.are_at_rest lanes.old }
{
    let parcel = delivered(alloc, lanes, one_event(alloc, 8)?)?;
    assert!(rt; is_of_kind(&parcel, 8));
    Ok(())
}

#[test]
fn plain_lanes_hand_a_parcel_over(rt: HostRuntime) -> Result<(), Fail> {
    hands_over(&rt, rt.alloc(), &mut PlainLanes::new(rt.alloc(), 2)?)?;
    delivers(&rt, rt.alloc(), &mut PlainLanes::new(rt.alloc(), 2)?)
}

#[test]
fn ring_lanes_hand_a_parcel_over(rt: HostRuntime) -> Result<(), Fail> {
    hands_over(&rt, rt.alloc(), &mut RingLanes::new(rt.alloc(), 2)?)?;
    delivers(&rt, rt.alloc(), &mut RingLanes::new(rt.alloc(), 2)?)
}

/// Polls until a parcel is there. No wait: it gives up after many polls.
fn poll(end: &mut RingEnd) -> Option<Parcel> {
    for _ in 0..200_000_000u32 {
        if let Some(parcel) = end.early() {
            return Some(parcel);
        }
    }
    None
}

/// One thread posts to node 1, and another one polls there.
fn post_and_poll<R: Threads + Sync>(
    rt: &R,
    left: &mut RingEnd,
    right: &mut RingEnd,
    parcel: Parcel,
) -> Option<Parcel>
    requires node { 1 < ⟦<RingEnd as NodeEnd>⟧.nodes left.old }
    requires free { ⟦<RingEnd as NodeEnd>⟧.is_free left.old 1 }
    requires from { parcel.from ≡ ⟦<RingEnd as NodeEnd>⟧.number left.old }
{
    let (_, found) = thread::join(rt, || left.post(1, parcel), || poll(right));
    found
}

#[test]
fn a_thread_finds_what_another_posts(rt: HostRuntime) -> Result<(), Fail> {
    let events = one_event(rt.alloc(), 9)?;
    let parcel = Parcel { from: 0, events };
    let mut lanes = RingLanes::new(rt.alloc(), 2)?;
    let mut ends = lanes.ready(rt.alloc())?;
    assert!(rt; ends.len() == 2);
    let (left, right) = ends.as_mut_slice().split_at_mut(1);
    let came = post_and_poll(&rt, &mut left[0], &mut right[0], parcel);
    assert!(rt; came.is_some_and(|parcel| is_one_of_kind(&parcel, 9)));
    Ok(())
}
