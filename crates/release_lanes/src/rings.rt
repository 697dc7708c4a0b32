//! Lanes of rings, for nodes that are served by several threads at a time.
ghost use Rattle.std.specs.Prelude.{◌≡◌, ◌≢◌, ◌↔◌, ℕ, ◌<◌, [], ◌++◌, All, IsTrue, IfOk, OnOk, IfSome, IfNone};
ghost use Rattle.std.specs.Prelude.{map, length, slice_index, slice_index_or};
ghost use Rattle.rtrb.specs.Ring.{sent, known_free};
ghost use Rattle.release_lanes.specs.Lanes.{AllArrived, Meets, list_at};
ghost use Rattle.release_lanes.specs.Rings.{AreConnected, AreBack, AreSendersOf, AreFreed, MeetFrom, TakesKnown};
ghost use Rattle.release_lanes.specs.Rings.{Ring, ring_out, ring_in, outline, outs_of, sent_row, received_row, known_row, free_row};
ghost use Rattle.release_lanes.specs.Rings.{HasSlot, IsNewSender, IsNew, received_on, rest_on, sent_on, free_on};
ghost use Rattle.release_lanes.specs.Woven.{IsWoven, Grows};

use crate::lanes::{Lanes, NodeEnd};
use crate::parcel::Parcel;
use model_core::OutOfMemory;
use rtrb::{Consumer, Producer, RingBuffer};
use std::alloc::Global;
use std::mem;

/// The end of a node on rings: one to each node, and one from each.
#[derive(Drop)]
pub struct RingEnd {
    number: u32,
    outs: Vec<Producer<Parcel>>,
    ins: Vec<Consumer<Parcel>>,
}

/// Lanes of rings: one for each node and each node that it posts to.
#[derive(Drop)]
pub struct RingLanes {
    alloc: Global,
    nodes: u32,
    /// None while they are handed out.
    ends: Vec<RingEnd>,
    /// The node that has received last.
    served: u32,
    /// Nothing rests for it from the nodes below this one.
    next: usize,
}

impl RingEnd {
    /// An end that no ring leads to or from.
    fn new(alloc: Global, number: u32, nodes: u32) -> Result<RingEnd, OutOfMemory>
        ensures outline { IfOk result (λ end. outline end ≡ record { number = number; outs = []; ins = [] }) }
        ensures new { IfOk result IsNew }
    {
        Ok(RingEnd {
            number,
            outs: Vec::new(alloc),
            ins: Vec::with_capacity(alloc, nodes as usize)?,
        })
    }

    /// Whether it knows each of its slots to be free.
    fn knows_free(&self) -> bool
        ensures { IsTrue result ↔ All (λ sender. 0 < known_free sender) self.now.outs.items }
    {
        self.outs.iter().all(|sender| sender.cached_slots() > 0)
    }

    /// What sends on the ring from a node learns that the slot is free, if all was received.
    fn find_free(&mut self, from: usize, sender: &mut Producer<Parcel>)
        requires within { from < length self.old.ins.items }
        requires pair { (r : Ring) → ring_out sender.old ≡ slice_index_or (map ring_in self.old.ins.items) from r }
        requires slot { HasSlot (ring_out sender.old) }
        ensures outline { outline self.new ≡ outline self.old }
        ensures outs { self.new.outs ≡ self.old.outs }
        ensures received { received_row self.new ≡ received_row self.old }
        ensures known { (other : ℕ) → other ≢ from → list_at (known_row self.new) other ≡ list_at (known_row self.old) other }
        ensures sender { (ring_out sender.new ≡ ring_out sender.old) × (sent sender.new ≡ sent sender.old) }
        ensures free { list_at (received_row self.old) from ≡ sent sender.old → 0 < known_free sender.new }
    {
        if sender.cached_slots() > 0 {
            return;
        }
        sender.slots_beside(&mut self.ins[from]);
    }

    /// Learns of all that was sent on the ring from a node, and lets what sends there learn that the slot is free.
    fn look(&mut self, from: usize, sender: &mut Producer<Parcel>)
        requires within { from < length self.old.ins.items }
        requires pair { (r : Ring) → ring_out sender.old ≡ slice_index_or (map ring_in self.old.ins.items) from r }
        requires slot { HasSlot (ring_out sender.old) }
        ensures outline { outline self.new ≡ outline self.old }
        ensures outs { self.new.outs ≡ self.old.outs }
        ensures received { received_row self.new ≡ received_row self.old }
        ensures known { (other : ℕ) → other ≢ from → list_at (known_row self.new) other ≡ list_at (known_row self.old) other }
        ensures met { list_at (received_row self.new) from ++ list_at (known_row self.new) from ≡ sent sender.old }
        ensures sender { (ring_out sender.new ≡ ring_out sender.old) × (sent sender.new ≡ sent sender.old) }
        ensures free { list_at (received_row self.old) from ≡ sent sender.old → 0 < known_free sender.new }
    {
        self.find_free(from, sender);
        self.ins[from].slots_beside(sender);
    }

    /// The next parcel of the rings from the nodes at and after a place, if one rests that this end knows of, with the
    /// number of the node that sent it.
    fn next_parcel(&mut self, first: usize) -> Option<(usize, Parcel)>
        requires { (from : ℕ) → from < first → list_at (known_row self.old) from ≡ [] }
        ensures outline { outline self.new ≡ outline self.old }
        ensures sent { sent_row self.new ≡ sent_row self.old }
        ensures none { IfNone result ((from : ℕ) → list_at (known_row self.old) from ≡ []) }
        ensures same { IfNone result ((received_row self.new ≡ received_row self.old) × (known_row self.new ≡ known_row self.old)) }
        ensures some { IfSome result (λ found. TakesKnown self.old self.new found.0 found.1) }
    {
        for from in first..self.ins.len() {
            if self.ins[from].cached_slots() > 0 {
                return Some((from, self.ins[from].pop_known()));
            }
        }
        None
    }
}

/// A ring to each of the ends: what sends on it, in the order of the ends.
fn rings_to(alloc: Global, ends: &mut [RingEnd]) -> Result<Vec<Producer<Parcel>>, OutOfMemory>
    requires { All IsNew ends.old }
    ensures count { IfOk result (λ outs. length outs.items ≡ length ends.old) }
    ensures ends { IfOk result (λ outs. Grows (map outline ends.old) (map ring_out outs.items) (map outline ends.new)) }
    ensures outs { IfOk result (λ outs. All IsNewSender outs.items) }
    ensures new { OnOk result (All IsNew ends.new) }
{
    let mut outs = Vec::with_capacity(alloc, ends.len())?;
    for to in 0..ends.len() {
        let (sender, receiver) = RingBuffer::new(alloc, 1)?;
        ends[to].ins.push(receiver)?;
        outs.push(sender)?;
    }
    Ok(outs)
}

/// One end for each node, with no ring.
fn bare_ends(alloc: Global, nodes: u32) -> Result<Vec<RingEnd>, OutOfMemory>
    ensures woven { IfOk result (λ ends. IsWoven nodes 0 (map outline ends.items)) }
    ensures new { IfOk result (λ ends. All IsNew ends.items) }
{
    let mut ends = Vec::with_capacity(alloc, nodes as usize)?;
    for number in 0..nodes {
        ends.push(RingEnd::new(alloc, number, nodes)?)?;
    }
    Ok(ends)
}

/// One end for each node, with a new ring from each to each.
fn new_ends(alloc: Global, nodes: u32) -> Result<Vec<RingEnd>, OutOfMemory>
    ensures woven { IfOk result (λ ends. IsWoven nodes nodes (map outline ends.items)) }
    ensures new { IfOk result (λ ends. All IsNew ends.items) }
{
    let mut ends = bare_ends(alloc, nodes)?;
    for from in 0..nodes as usize {
        let outs = rings_to(alloc, ends.as_mut_slice())?;
        ends[from].outs = outs;
    }
    Ok(ends)
}

/// Each end learns of all that one node has sent to it, and that node learns which of its slots are free.
fn look_all(senders: &mut [Producer<Parcel>], from: usize, ends: &mut [RingEnd])
    requires count { length senders.old ≡ length ends.old }
    requires within { All (λ end. from < length end.ins.items) ends.old }
    requires pairs { AreSendersOf senders.old from ends.old }
    requires slots { All HasSlot (map ring_out senders.old) }
    ensures outlines { map outline ends.new ≡ map outline ends.old }
    ensures outs { map outs_of ends.new ≡ map outs_of ends.old }
    ensures received { map received_row ends.new ≡ map received_row ends.old }
    ensures senders { (map ring_out senders.new ≡ map ring_out senders.old) × (map sent senders.new ≡ map sent senders.old) }
    ensures known { (i to : ℕ) → i ≢ from → rest_on ends.new i to ≡ rest_on ends.old i to }
    ensures met { MeetFrom (length ends.old) from (list_at (map sent senders.old)) ends.new }
    ensures free { AreFreed (length ends.old) (received_on ends.old from) (list_at (map sent senders.old))
        (slice_index (map known_free senders.new)) }
{
    for to in 0..ends.len() {
        ends[to].look(from, &mut senders[to]);
    }
}

/// Each end learns of all that the node at a place has sent to it, and that node learns which of its slots are free.
fn meet(alloc: Global, ends: &mut [RingEnd], from: usize)
    requires within { from < length ends.old }
    requires connected { AreConnected (length ends.old) (map outline ends.old) }
    ensures outlines { map outline ends.new ≡ map outline ends.old }
    ensures sent { map sent_row ends.new ≡ map sent_row ends.old }
    ensures received { map received_row ends.new ≡ map received_row ends.old }
    ensures known { (i to : ℕ) → i ≢ from → rest_on ends.new i to ≡ rest_on ends.old i to }
    ensures met { MeetFrom (length ends.old) from (sent_on ends.new from) ends.new }
    ensures others { (i to : ℕ) → i ≢ from → free_on ends.new i to ≡ free_on ends.old i to }
    ensures free { AreFreed (length ends.old) (received_on ends.old from) (sent_on ends.old from) (free_on ends.new from) }
{
    let mut senders = mem::replace(&mut ends[from].outs, Vec::new(alloc));
    look_all(senders.as_mut_slice(), from, ends);
    ends[from].outs = senders;
}

/// Each end learns of all that was sent to it.
fn meet_all(alloc: Global, ends: &mut [RingEnd])
    requires { AreConnected (length ends.old) (map outline ends.old) }
    ensures outlines { map outline ends.new ≡ map outline ends.old }
    ensures sent { map sent_row ends.new ≡ map sent_row ends.old }
    ensures received { map received_row ends.new ≡ map received_row ends.old }
    ensures met { Meets (length ends.old) (received_on ends.new) (rest_on ends.new) (sent_on ends.new) }
{
    for from in 0..ends.len() {
        meet(alloc, ends, from);
    }
}

/// The node at a place learns that its slots are free.
fn free(alloc: Global, ends: &mut [RingEnd], from: usize)
    requires within { from < length ends.old }
    requires connected { AreConnected (length ends.old) (map outline ends.old) }
    requires rested { (to : ℕ) → to < length ends.old → received_on ends.old from to ≡ sent_on ends.old from to }
    ensures outlines { map outline ends.new ≡ map outline ends.old }
    ensures sent { map sent_row ends.new ≡ map sent_row ends.old }
    ensures received { map received_row ends.new ≡ map received_row ends.old }
    ensures others { (i to : ℕ) → i ≢ from → free_on ends.new i to ≡ free_on ends.old i to }
    ensures free { (to : ℕ) → to < length ends.old → 0 < free_on ends.new from to }
{
    // it is so unless the node has posted
    if ends[from].knows_free() {
        return;
    }
    meet(alloc, ends, from);
}

/// Each end learns that its slots are free.
fn free_all(alloc: Global, ends: &mut [RingEnd])
    requires connected { AreConnected (length ends.old) (map outline ends.old) }
    requires rested { AllArrived (length ends.old) (received_on ends.old) (sent_on ends.old) }
    ensures outlines { map outline ends.new ≡ map outline ends.old }
    ensures sent { map sent_row ends.new ≡ map sent_row ends.old }
    ensures received { map received_row ends.new ≡ map received_row ends.old }
    ensures free { (from to : ℕ) → from < length ends.old → to < length ends.old → 0 < free_on ends.new from to }
{
    for from in 0..ends.len() {
        free(alloc, ends, from);
    }
}

impl NodeEnd for RingEnd {
    ghost use Rattle.std.specs.Prelude.{◌≡◌, ◌<◌, [], length, slice_index, refl};
    ghost use Rattle.std.proofs.Common.{ap, ◌∙◌};
    ghost use Rattle.release_lanes.specs.Lanes.{list_at};
    ghost use Rattle.release_lanes.specs.Rings.{outline, sent_row, received_row, known_row, free_row};
    ghost use Rattle.release_lanes.specs.RingLaws.{same_nodes};

    ghost number = { λ end. end.number };

    ghost nodes = { λ end. length end.ins.items };

    ghost sent = { λ end to. list_at (sent_row end) to };

    ghost received = { λ end from. list_at (received_row end) from };

    ghost is_free = { λ end to. 0 < slice_index (free_row end) to };

    ghost knows_parcel = { λ end from. 0 < length (list_at (known_row end) from) };

    ghost is_same = { λ a b. outline b ≡ outline a };

    fn post(&mut self, to: u32, parcel: Parcel) {
        self.outs[to as usize].push_reserved(parcel);
    }

    fn early(&mut self) -> Option<Parcel> {
        for from in 0..self.ins.len() {
            if let Ok(parcel) = self.ins[from].pop() {
                return Some(parcel);
            }
        }
        None
    }

    ghost same_first = { λ _. refl };

    ghost same_then = { λ _ _ _ first then. then ∙ first };

    ghost same_number = { λ _ _ same. ap (λ o. o.number) same };

    ghost same_nodes = { λ a b same. same_nodes a b same };
}

impl RingLanes {
    /// Lanes between so many nodes, on which nothing was sent. It answers an error only for want of memory.
    pub fn new(alloc: Global, nodes: u32) -> Result<RingLanes, OutOfMemory>
        ensures nodes { IfOk result (λ lanes. ⟦<RingLanes as Lanes>⟧.nodes lanes ≡ nodes) }
        ensures at_rest { IfOk result ⟦<RingLanes as Lanes>⟧.are_at_rest }
    {
        Ok(RingLanes {
            alloc,
            nodes,
            ends: new_ends(alloc, nodes)?,
            served: 0,
            next: 0,
        })
    }
}

impl RingLanes {
    /// Receives for this node from now on.
    fn serve(&mut self, to: u32)
        requires { AreBack self.old.nodes self.old.served self.old.next self.old.ends.items }
        ensures back { AreBack self.new.nodes to self.new.next self.new.ends.items }
        ensures served { self.new.served ≡ to }
        ensures same { (self.new.nodes ≡ self.old.nodes) × (self.new.ends ≡ self.old.ends) }
    {
        if self.served != to {
            self.served = to;
            self.next = 0;
        }
    }
}

impl Lanes for RingLanes {
    ghost use Rattle.std.specs.Prelude.{◌≡◌, ◌<◌, ℕ, [], map, length};
    ghost use Rattle.release_lanes.specs.Lanes.{SameLists};
    ghost use Rattle.release_lanes.specs.Rings.{outline, sent_on, received_on, rest_on, AreConnected, AreBack, AreAtRest};

    type End = RingEnd;

    ghost nodes = { λ lanes. lanes.nodes };

    ghost are_out = { λ lanes ends. AreConnected lanes.nodes (map outline ends) };

    ghost are_back = { λ lanes. AreBack lanes.nodes lanes.served lanes.next lanes.ends.items };

    ghost are_at_rest = { λ lanes. AreAtRest lanes.nodes lanes.served lanes.next lanes.ends.items };

    ghost sent = { λ lanes. sent_on lanes.ends.items };

    ghost received = { λ lanes. received_on lanes.ends.items };

    ghost rest = { λ lanes. rest_on lanes.ends.items };

    fn ready(&mut self, alloc: Global) -> Result<Vec<RingEnd>, OutOfMemory> {
        free_all(alloc, self.ends.as_mut_slice());
        Ok(mem::replace(&mut self.ends, Vec::new(alloc)))
    }

    fn give_back(&mut self, ends: Vec<RingEnd>)
        requires { AreConnected self.old.nodes (map outline ends.items) }
        ensures nodes { self.new.nodes ≡ self.old.nodes }
        ensures back { AreBack self.new.nodes self.new.served self.new.next self.new.ends.items }
        ensures sent { All (λ end. (to : ℕ) → sent_on self.new.ends.items end.number to ≡ list_at (sent_row end) to) ends.items }
        ensures received { All (λ end. SameLists (list_at (received_row end)) (λ from. received_on self.new.ends.items from end.number)) ends.items }
    {
        self.ends = ends;
        meet_all(self.alloc, self.ends.as_mut_slice());
        self.next = 0;
    }

    fn rest(&mut self, to: u32) -> Option<Parcel> {
        self.serve(to);
        let Some((from, parcel)) = self.ends[to as usize].next_parcel(self.next) else {
            self.next = self.ends.len();
            return None;
        };
        self.next = from;
        Some(parcel)
    }

    ghost use Rattle.release_lanes.specs.RingLaws.{ring_stay};

    ghost lane = { λ _ back from to from_within to_within. back.meets from to from_within to_within };

    ghost at_rest = { λ _. (λ now. now, λ now. now) };

    ghost stay_out = { λ lanes old new out same. ring_stay lanes.nodes old new out same };
}
