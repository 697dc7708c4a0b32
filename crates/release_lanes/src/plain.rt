//! Lanes of plain slots, for a calling thread that serves the nodes one after another.
ghost use Rattle.std.specs.Prelude.{◌≡◌, ℕ, ◌<◌, ◌≤◌, [], ◌∷◌, All, IfOk, IfSome, IfNone, map, length, slice_set};
ghost use Rattle.release_lanes.specs.Lanes.{list_at};
ghost use Rattle.release_lanes.specs.Plain.{outline, posted, standing, delivered, TakesFirst, IsTeam, AreEmpty, AreBack};

use crate::lanes::{Lanes, NodeEnd};
use crate::parcel::Parcel;
use model_core::OutOfMemory;
use std::alloc::Global;
use std::mem;
use std::snapshot::Snapshot;

/// The end of a node on plain slots. It polls nothing, since it knows of nothing.
#[derive(Drop)]
pub struct PlainEnd {
    number: u32,
    /// What is posted to each node.
    slots: Vec<Option<Parcel>>,
}

/// Lanes of plain slots: one for each node and each node that it posts to.
#[derive(Drop)]
pub struct PlainLanes {
    nodes: u32,
    /// None while they are handed out.
    ends: Vec<PlainEnd>,
    /// The ends as they were given back.
    sent: Snapshot<Vec<PlainEnd>>,
    /// The node that has received last.
    served: u32,
    /// Nothing rests for it from the nodes below this one.
    next: usize,
}

impl PlainEnd {
    /// An end with empty slots.
    fn new(alloc: Global, number: u32, nodes: u32) -> Result<PlainEnd, OutOfMemory>
        ensures outline { IfOk result (λ end. outline end ≡ (number, nodes)) }
        ensures empty { IfOk result AreEmpty }
    {
        let mut slots = Vec::with_capacity(alloc, nodes as usize)?;
        for _ in 0..nodes {
            slots.push(None)?;
        }
        Ok(PlainEnd { number, slots })
    }

    /// Takes what is posted to a node.
    fn take(&mut self, to: usize) -> Option<Parcel>
        requires { to < length self.old.slots.items }
        ensures outline { outline self.new ≡ outline self.old }
        ensures none { IfNone result ((list_at (posted self.old) to ≡ []) × (posted self.new ≡ posted self.old)) }
        ensures some { IfSome result (λ parcel. list_at (posted self.old) to ≡ parcel ∷ []) }
        ensures emptied { posted self.new ≡ slice_set (posted self.old) to [] }
    {
        self.slots[to].take()
    }
}

/// One end for each node, with empty slots.
fn new_ends(alloc: Global, nodes: u32) -> Result<Vec<PlainEnd>, OutOfMemory>
    ensures team { IfOk result (λ ends. IsTeam nodes ends.items) }
    ensures empty { IfOk result (λ ends. All AreEmpty ends.items) }
{
    let mut ends = Vec::with_capacity(alloc, nodes as usize)?;
    for number in 0..nodes {
        ends.push(PlainEnd::new(alloc, number, nodes)?)?;
    }
    Ok(ends)
}

/// The next parcel to a node from the nodes at and after a place, with the number of the node that sent it.
fn next_parcel(ends: &mut [PlainEnd], to: usize, first: usize) -> Option<(usize, Parcel)>
    requires { All (λ end. to < length end.slots.items) ends.old }
    ensures outlines { map outline ends.new ≡ map outline ends.old }
    ensures none { IfNone result ((from : ℕ) → first ≤ from → standing ends.old from to ≡ []) }
    ensures same { IfNone result (map posted ends.new ≡ map posted ends.old) }
    ensures some { IfSome result (λ found. TakesFirst ends.old ends.new to first found.0 found.1) }
{
    for from in first..ends.len() {
        if let Some(parcel) = ends[from].take(to) {
            return Some((from, parcel));
        }
    }
    None
}

impl NodeEnd for PlainEnd {
    ghost use Rattle.std.specs.Prelude.{◌≡◌, [], Some, None, slice_get, length, refl};
    ghost use Rattle.std.proofs.Common.{ap, ◌∙◌};
    ghost use Rattle.release_lanes.specs.Lanes.{list_at};
    ghost use Rattle.release_lanes.specs.Plain.{outline, posted};

    ghost number = { λ end. end.number };

    ghost nodes = { λ end. length end.slots.items };

    ghost sent = { λ end to. list_at (posted end) to };

    ghost received = { λ _ _. [] };

    ghost is_free = { λ end to. slice_get end.slots.items to ≡ Some None };

    ghost knows_parcel = { λ _ _. ⊥ };

    ghost is_same = { λ a b. outline b ≡ outline a };

    fn post(&mut self, to: u32, parcel: Parcel) {
        self.slots[to as usize] = Some(parcel);
    }

    fn early(&mut self) -> Option<Parcel> {
        None
    }

    ghost same_first = { λ _. refl };

    ghost same_then = { λ _ _ _ first then. then ∙ first };

    ghost same_number = { λ _ _ same. ap (λ o. o.0) same };

    ghost same_nodes = { λ _ _ same. ap (λ o. o.1) same };
}

impl PlainLanes {
    /// Lanes between so many nodes, on which nothing was sent. It answers an error only for want of memory.
    pub fn new(alloc: Global, nodes: u32) -> Result<PlainLanes, OutOfMemory>
        ensures nodes { IfOk result (λ lanes. ⟦<PlainLanes as Lanes>⟧.nodes lanes ≡ nodes) }
        ensures at_rest { IfOk result ⟦<PlainLanes as Lanes>⟧.are_at_rest }
    {
        let ends = new_ends(alloc, nodes)?;
        let sent = Snapshot::of(&ends);
        Ok(PlainLanes {
            nodes,
            ends,
            sent,
            served: 0,
            next: 0,
        })
    }
}

impl PlainLanes {
    /// Receives for this node from now on.
    fn serve(&mut self, to: u32)
        requires { AreBack self.old.nodes self.old.served self.old.next self.old.sent.value.items self.old.ends.items }
        ensures back { AreBack self.new.nodes to self.new.next self.new.sent.value.items self.new.ends.items }
        ensures served { self.new.served ≡ to }
        ensures same { (self.new.nodes ≡ self.old.nodes) × (self.new.ends ≡ self.old.ends) × (self.new.sent ≡ self.old.sent) }
    {
        if self.served != to {
            self.served = to;
            self.next = 0;
        }
    }
}

impl Lanes for PlainLanes {
    ghost use Rattle.std.specs.Prelude.{◌≡◌, ◌<◌, ℕ, [], length};
    ghost use Rattle.release_lanes.specs.Plain.{outline, posted, standing, delivered, IsTeam, AreBack, AreAtRest};

    type End = PlainEnd;

    ghost nodes = { λ lanes. lanes.nodes };

    ghost are_out = { λ lanes ends. IsTeam lanes.nodes ends };

    ghost are_back = { λ lanes. AreBack lanes.nodes lanes.served lanes.next lanes.sent.value.items lanes.ends.items };

    ghost are_at_rest = { λ lanes. AreAtRest lanes.nodes lanes.served lanes.next lanes.sent.value.items lanes.ends.items };

    ghost sent = { λ lanes. standing lanes.sent.value.items };

    ghost received = { λ lanes. delivered lanes.sent.value.items lanes.ends.items };

    ghost rest = { λ lanes. standing lanes.ends.items };

    fn ready(&mut self, alloc: Global) -> Result<Vec<PlainEnd>, OutOfMemory> {
        Ok(mem::replace(&mut self.ends, Vec::new(alloc)))
    }

    fn give_back(&mut self, ends: Vec<PlainEnd>)
        requires { IsTeam self.old.nodes ends.items }
        ensures nodes { self.new.nodes ≡ self.old.nodes }
        ensures back { AreBack self.new.nodes self.new.served self.new.next self.new.sent.value.items self.new.ends.items }
        ensures sent { All (λ end. (to : ℕ) → standing self.new.sent.value.items end.number to ≡ list_at (posted end) to) ends.items }
        ensures received { All (λ end. (from : ℕ) → delivered self.new.sent.value.items self.new.ends.items from end.number ≡ []) ends.items }
    {
        self.sent = Snapshot::of(&ends);
        self.ends = ends;
        self.next = 0;
    }

    fn rest(&mut self, to: u32) -> Option<Parcel> {
        self.serve(to);
        let Some((from, parcel)) = next_parcel(self.ends.as_mut_slice(), to as usize, self.next)
        else {
            self.next = self.ends.len();
            return None;
        };
        self.next = from;
        Some(parcel)
    }

    ghost use Rattle.release_lanes.specs.Laws.{plain_lane, plain_stay};

    ghost lane = { λ lanes back from to _ _. plain_lane lanes.nodes lanes.served lanes.next lanes.sent.value.items lanes.ends.items from to back };

    ghost at_rest = { λ _. (λ now. now, λ now. now) };

    ghost stay_out = { λ lanes old new out same. plain_stay lanes.nodes old new out same };
}
