//! What comes to a node.
ghost use Rattle.std.specs.Prelude.{◌≡◌, ℕ, ◌+◌, ◌<◌, ◌≤◌, ◌^◌, ◌++◌, [], All, length, Some, slice_get, vec_capacity};
ghost use Rattle.std.specs.Prelude.{IfOk, IsPermutation};
ghost use Rattle.release_lanes.specs.Lanes.{SameLists};
ghost use Rattle.parcel_exchange.specs.Mail.{events_in};
ghost use Rattle.parcel_exchange.specs.Exchange.{HasTaken, HasExchanged};
ghost use Rattle.parcel_exchange.specs.Inboxes.{coming, resting, HasArrived, StaysElsewhere};

use crate::posting::post_all;
use event_chain::Chain;
use model_core::{Event, OutOfMemory};
use release_lanes::{Lanes, NodeEnd, Parcel};
use std::alloc::Global;

/// What comes to one node in a cycle.
#[derive(Drop)]
pub struct Inbox {
    /// The parcels that were taken while other nodes still posted.
    pub early: Vec<Parcel>,
    /// The events that have arrived.
    pub arrived: Chain<Event>,
}

impl Inbox {
    /// An empty inbox, with room for so many early parcels.
    pub fn new(alloc: Global, parcels: usize) -> Result<Inbox, OutOfMemory>
        ensures early { IfOk result (λ inbox. inbox.early.items ≡ []) }
        ensures arrived { IfOk result (λ inbox. inbox.arrived ≡ []) }
        ensures room { IfOk result (λ inbox. parcels ≤ vec_capacity inbox.early) }
    {
        Ok(Inbox {
            early: Vec::with_capacity(alloc, parcels)?,
            arrived: Chain::new(),
        })
    }

    /// Takes parcels that have come by now, as long as there is room: it polls so many times at most. It takes no memory.
    pub fn take_early<E: NodeEnd>(&mut self, end: &mut E, polls: usize)
        requires { self.old.early.items ≡ [] }
        ensures end { E.is_same end.old end.new }
        ensures sent { SameLists (E.sent end.old) (E.sent end.new) }
        ensures taken { HasTaken (E.nodes end.old) (E.received end.old) (E.received end.new) self.new.early.items }
        ensures room { vec_capacity self.new.early ≡ vec_capacity self.old.early }
        ensures arrived { self.new.arrived ≡ self.old.arrived }
    {
        let most = polls.min(self.early.capacity());
        for _ in 0..most {
            let Some(parcel) = end.early() else {
                return;
            };
            self.early.push_reserved(parcel);
        }
    }

    /// Posts what a node hands out, as `post_all` does, and takes parcels that have come by then. It polls so many times
    /// at most: polls pay where other nodes post at the same time.
    pub fn exchange<E: NodeEnd>(
        &mut self,
        end: &mut E,
        number: u32,
        out: &mut [Chain<Event>],
        polls: usize,
    )
        requires empty { self.old.early.items ≡ [] }
        requires number { E.number end.old ≡ number }
        requires nodes { E.nodes end.old ≡ length out.old }
        requires few { length out.old < 2 ^ 32 }
        requires free { (to : ℕ) → to < length out.old → E.is_free end.old to }
        ensures end { E.is_same end.old end.new }
        ensures exchanged { HasExchanged E.sent E.received (length out.old) number out.old self.new.early.items end.old end.new }
        ensures none { All (λ events. events ≡ []) out.new }
        ensures room { vec_capacity self.new.early ≡ vec_capacity self.old.early }
        ensures arrived { self.new.arrived ≡ self.old.arrived }
    {
        post_all(end, number, out);
        self.take_early(end, polls);
    }

    /// Lets the early parcels arrive.
    fn open(&mut self)
        requires { length (self.old.arrived ++ events_in self.old.early.items) < 2 ^ 60 }
        ensures arrived { IsPermutation (self.old.arrived ++ events_in self.old.early.items) self.new.arrived }
        ensures early { self.new.early.items ≡ [] }
        ensures room { vec_capacity self.new.early ≡ vec_capacity self.old.early }
    {
        while let Some(parcel) = self.early.pop() {
            self.arrived.append(parcel.events);
        }
    }

    /// Lets arrive what rests for the node.
    fn fetch<L: Lanes>(&mut self, lanes: &mut L, to: u32)
        requires back { L.are_back lanes.old }
        requires node { to < L.nodes lanes.old }
        requires few { length (self.old.arrived ++ resting (L.nodes lanes.old) (λ from. L.rest lanes.old from to)) < 2 ^ 60 }
        ensures back { L.are_back lanes.new }
        ensures nodes { L.nodes lanes.new ≡ L.nodes lanes.old }
        ensures others { StaysElsewhere (L.nodes lanes.old) to (L.rest lanes.old) (L.rest lanes.new) }
        ensures rest { (from : ℕ) → from < L.nodes lanes.old → L.rest lanes.new from to ≡ [] }
        ensures arrived { IsPermutation (self.old.arrived ++ resting (L.nodes lanes.old) (λ from. L.rest lanes.old from to)) self.new.arrived }
        ensures early { self.new.early ≡ self.old.early }
    {
        while let Some(parcel) = lanes.rest(to) {
            self.arrived.append(parcel.events);
        }
    }

    /// Lets arrive what was taken early and all that rests for the node. It takes no memory.
    pub fn receive<L: Lanes>(&mut self, lanes: &mut L, to: u32)
        requires back { L.are_back lanes.old }
        requires node { to < L.nodes lanes.old }
        requires few { length (coming (L.nodes lanes.old) (λ from. L.rest lanes.old from to) self.old) < 2 ^ 60 }
        ensures back { L.are_back lanes.new }
        ensures nodes { L.nodes lanes.new ≡ L.nodes lanes.old }
        ensures others { StaysElsewhere (L.nodes lanes.old) to (L.rest lanes.old) (L.rest lanes.new) }
        ensures rest { (from : ℕ) → from < L.nodes lanes.old → L.rest lanes.new from to ≡ [] }
        ensures arrived { HasArrived (L.nodes lanes.old) (λ from. L.rest lanes.old from to) self.old self.new }
        ensures room { vec_capacity self.new.early ≡ vec_capacity self.old.early }
    {
        self.open();
        self.fetch(lanes, to);
    }
}

/// Each node receives, in the order of the nodes, and the lanes are at rest then. It takes no memory.
pub fn receive_all<L: Lanes>(lanes: &mut L, inboxes: &mut [Inbox])
    requires back { L.are_back lanes.old }
    requires nodes { L.nodes lanes.old ≡ length inboxes.old }
    requires small { length inboxes.old < 2 ^ 32 }
    requires few { (to : ℕ) (inbox : Inbox) → slice_get inboxes.old to ≡ Some inbox
        → length (coming (length inboxes.old) (λ from. L.rest lanes.old from to) inbox) < 2 ^ 60 }
    ensures at_rest { L.are_at_rest lanes.new }
    ensures nodes { L.nodes lanes.new ≡ L.nodes lanes.old }
    ensures arrived { (to : ℕ) (x y : Inbox) → slice_get inboxes.old to ≡ Some x → slice_get inboxes.new to ≡ Some y
        → HasArrived (length inboxes.old) (λ from. L.rest lanes.old from to) x y }
{
    for to in 0..inboxes.len() {
        inboxes[to].receive(lanes, to as u32);
    }
}
