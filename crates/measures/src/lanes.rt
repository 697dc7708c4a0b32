//! Lanes: in each cycle each node posts an empty parcel to each node, and all of them are received, on one thread.
ghost use Rattle.std.specs.Prelude.{◌≡◌, ◌≢◌, ℕ, ◌<◌, [], All, IfSome, OnSome, map};
ghost use Rattle.std.specs.List.{AllZip, range_with_len};

use crate::stopped::Stopped;
use event_chain::Chain;
use release_lanes::{Lanes, NodeEnd, Parcel, PlainLanes, RingLanes};
use std::alloc::Global;

/// Posts an empty parcel to each node.
fn post_to_all<E: NodeEnd>(end: &mut E, from: u32, nodes: u32)
    requires number { E.number end.old ≡ from }
    requires nodes { E.nodes end.old ≡ nodes }
    requires free { (to : ℕ) → to < nodes → E.is_free end.old to }
    ensures { E.is_same end.old end.new }
{
    for to in 0..nodes {
        let events = Chain::new();
        end.post(to, Parcel { from, events });
    }
}

/// Receives all that rests for a node, and counts it.
fn take_rest<L: Lanes>(lanes: &mut L, to: u32) -> Option<u64>
    requires back { L.are_back lanes.old }
    requires node { to < L.nodes lanes.old }
    ensures back { L.are_back lanes.new }
    ensures nodes { L.nodes lanes.new ≡ L.nodes lanes.old }
    ensures others { (i j : ℕ) → i < L.nodes lanes.old → j < L.nodes lanes.old → j ≢ to → L.rest lanes.new i j ≡ L.rest lanes.old i j }
    ensures rest { IfSome result (λ _. (from : ℕ) → from < L.nodes lanes.old → L.rest lanes.new from to ≡ []) }
{
    for count in 0..u64::MAX {
        let Some(_) = lanes.rest(to) else {
            return Some(count);
        };
    }
    None
}

/// Each end posts an empty parcel to each node.
fn post_all<E: NodeEnd>(ends: &mut Vec<E>, nodes: u32)
    requires numbers { map E.number ends.old.items ≡ range_with_len 0 nodes }
    requires nodes { All (λ end. E.nodes end ≡ nodes) ends.old.items }
    requires free { All (λ end. (to : ℕ) → to < nodes → E.is_free end to) ends.old.items }
    ensures { AllZip E.is_same ends.old.items ends.new.items }
{
    for from in 0..nodes {
        post_to_all(&mut ends[from as usize], from, nodes);
    }
}

/// Receives all that rests, and counts it. The count wraps.
fn take_all<L: Lanes>(lanes: &mut L, nodes: u32) -> Option<u64>
    requires nodes { L.nodes lanes.old ≡ nodes }
    requires back { L.are_back lanes.old }
    ensures nodes { L.nodes lanes.new ≡ nodes }
    ensures at_rest { OnSome result (L.are_at_rest lanes.new) }
{
    let mut count: u64 = 0;
    for to in 0..nodes {
        count = count.wrapping_add(take_rest(lanes, to)?);
    }
    Some(count)
}

/// One cycle of all nodes: how many parcels were received. None for want of memory.
fn cycle<L: Lanes>(alloc: Global, lanes: &mut L, nodes: u32) -> Option<u64>
    requires nodes { L.nodes lanes.old ≡ nodes }
    requires at_rest { L.are_at_rest lanes.old }
    ensures nodes { L.nodes lanes.new ≡ nodes }
    ensures at_rest { OnSome result (L.are_at_rest lanes.new) }
{
    let mut ends = lanes.ready(alloc).ok()?;
    post_all(&mut ends, nodes);
    lanes.give_back(ends);
    take_all(lanes, nodes)
}

/// So many cycles: how many parcels were received, modulo 2^64. None for want of memory.
fn cycles<L: Lanes>(alloc: Global, lanes: &mut L, nodes: u32, count: u32) -> Option<u64>
    requires nodes { L.nodes lanes.old ≡ nodes }
    requires at_rest { L.are_at_rest lanes.old }
{
    let mut parcels: u64 = 0;
    for _ in 0..count {
        parcels = parcels.wrapping_add(cycle(alloc, lanes, nodes)?);
    }
    Some(parcels)
}

/// How many parcels so many cycles hand over by plain slots, among 1 to 64 nodes.
pub fn by_slots(alloc: Global, nodes: u32, count: u32) -> Result<u64, Stopped> {
    if nodes < 1 || nodes > 64 {
        return Err(Stopped::Refused);
    }
    let mut lanes = PlainLanes::new(alloc, nodes)?;
    cycles(alloc, &mut lanes, nodes, count).ok_or(Stopped::OutOfMemory)
}

/// How many parcels so many cycles hand over by rings, among 1 to 64 nodes.
pub fn by_rings(alloc: Global, nodes: u32, count: u32) -> Result<u64, Stopped> {
    if nodes < 1 || nodes > 64 {
        return Err(Stopped::Refused);
    }
    let mut lanes = RingLanes::new(alloc, nodes)?;
    cycles(alloc, &mut lanes, nodes, count).ok_or(Stopped::OutOfMemory)
}
