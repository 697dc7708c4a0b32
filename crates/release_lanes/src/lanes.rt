//! What every kind of lanes keeps.
ghost use Rattle.std.specs.Prelude.{◌≡◌, ℕ, ◌+◌, ◌<◌, ◌↔◌, ◌≢◌, [], List, All, map, IfOk, OnErr, IfSome, IfNone};
ghost use Rattle.std.specs.List.{AllZip, range_with_len};
ghost use Rattle.release_lanes.specs.Lanes.{AddsOne, SameLists, SameLanes, Meets, NothingRests, TakesFromOne, TakesRest, AllReceived};

use crate::parcel::Parcel;
use model_core::OutOfMemory;
use std::alloc::Global;

/// The end of one node: on it the node posts to all nodes, and polls what all nodes have posted to it.
pub trait NodeEnd: Send + Drop {
    ghost use Rattle.release_lanes.specs.declared.parcel.Parcel.{Parcel};

    /// The number of the node.
    ghost number: { Self → ℕ };

    /// How many nodes there are.
    ghost nodes: { Self → ℕ };

    /// What this node has sent to a node, oldest first. It may begin anew when ends are handed out, since nothing rests then.
    ghost sent: { Self → ℕ → List Parcel };

    /// What this node has received from a node, oldest first. It begins anew where what was sent does.
    ghost received: { Self → ℕ → List Parcel };

    /// The slot of the lane to a node is known to be free.
    ghost is_free: { Self → ℕ → Type 0 };

    /// The lane from a node has a parcel that this end knows of.
    ghost knows_parcel: { Self → ℕ → Type 0 };

    /// The second is the first one later, after any posts and polls.
    ghost is_same: { Self → Self → Type 0 };

    /// Sends a parcel to a node.
    fn post(&mut self, to: u32, parcel: Parcel)
        requires node { to < nodes self.old }
        requires free { is_free self.old to }
        requires from { parcel.from ≡ number self.old }
        ensures end { is_same self.old self.new }
        ensures sent { AddsOne (sent self.old) (sent self.new) to parcel }
        ensures received { SameLists (received self.old) (received self.new) }
        ensures free { (other : ℕ) → other ≢ to → is_free self.old other → is_free self.new other };

    /// Takes a parcel that has come, if this end finds one. No contract says that it finds what another thread posts.
    fn early(&mut self) -> Option<Parcel>
        ensures end { is_same self.old self.new }
        ensures none { IfNone result ((from : ℕ) → ¬ knows_parcel self.old from) }
        ensures waits { IfNone result (SameLists (received self.old) (received self.new)) }
        ensures some { IfSome result (TakesFromOne (nodes self.old) (received self.old) (received self.new)) }
        ensures sent { SameLists (sent self.old) (sent self.new) }
        ensures free { (to : ℕ) → is_free self.old to → is_free self.new to };

    ghost same_first: { (end : Self) → is_same end end };

    ghost same_then: { (a b c : Self) → is_same a b → is_same b c → is_same a c };

    ghost same_number: { (a b : Self) → is_same a b → number b ≡ number a };

    ghost same_nodes: { (a b : Self) → is_same a b → nodes b ≡ nodes a };
}

/// A lane from each node to each node, itself among them.
pub trait Lanes {
    ghost use Rattle.release_lanes.specs.declared.parcel.Parcel.{Parcel};

    type End: NodeEnd;

    /// How many nodes there are.
    ghost nodes: { Self → ℕ };

    /// These are the ends that were handed out last, in the order of the nodes, after any posts and polls.
    ghost are_out: { Self → List Self.End → Type 0 };

    /// No ends are handed out.
    ghost are_back: { Self → Type 0 };

    /// No ends are handed out, and all that was sent was received.
    ghost are_at_rest: { Self → Type 0 };

    /// What the first node has sent to the second, oldest first.
    ghost sent: { Self → ℕ → ℕ → List Parcel };

    /// What the second node has received from the first, oldest first.
    ghost received: { Self → ℕ → ℕ → List Parcel };

    /// What the first node has sent to the second and the second has not received, oldest first.
    ghost rest: { Self → ℕ → ℕ → List Parcel };

    /// Hands out one end for each node, each slot of which is known to be free. Lanes keep their ends from cycle to
    /// cycle, so no memory is taken once these are made. It answers an error only for want of memory.
    ///
    /// Ends that are dropped can't be given back. Nothing is promised of the lanes from then on, and no call of theirs is
    /// allowed but a drop.
    fn ready(&mut self, alloc: Global) -> Result<Vec<Self::End>, OutOfMemory>
        requires { are_at_rest self.old }
        ensures nodes { nodes self.new ≡ nodes self.old }
        ensures refused { OnErr result (are_at_rest self.new) }
        ensures out { IfOk result (λ ends. are_out self.new ends.items) }
        ensures numbers { IfOk result (λ ends. map Self.End.number ends.items ≡ range_with_len 0 (nodes self.old)) }
        ensures count { IfOk result (λ ends. All (λ end. Self.End.nodes end ≡ nodes self.old) ends.items) }
        ensures free { IfOk result (λ ends. All (λ end. (to : ℕ) → to < nodes self.old → Self.End.is_free end to) ends.items) }
        ensures received { IfOk result (λ ends. AllReceived Self.End.sent Self.End.received ends.items) };

    /// Takes back the ends that were handed out.
    fn give_back(&mut self, ends: Vec<Self::End>)
        requires { are_out self.old ends.items }
        ensures nodes { nodes self.new ≡ nodes self.old }
        ensures back { are_back self.new }
        ensures sent { All (λ end. (to : ℕ) → sent self.new (Self.End.number end) to ≡ Self.End.sent end to) ends.items }
        ensures received { All (λ end. (from : ℕ) → received self.new from (Self.End.number end) ≡ Self.End.received end from) ends.items };

    /// Takes the next parcel of a lane to a node, if one is left.
    fn rest(&mut self, to: u32) -> Option<Parcel>
        requires back { are_back self.old }
        requires node { to < nodes self.old }
        ensures nodes { nodes self.new ≡ nodes self.old }
        ensures back { are_back self.new }
        ensures sent { SameLanes (sent self.old) (sent self.new) }
        ensures none { IfNone result ((from : ℕ) → from < nodes self.old → rest self.old from to ≡ []) }
        ensures same { IfNone result (SameLanes (received self.old) (received self.new)) }
        ensures some { IfSome result (TakesRest (nodes self.old) (rest self.old) (rest self.new) (received self.old) (received self.new) to) };

    ghost lane: { (lanes : Self) → are_back lanes → Meets (nodes lanes) (received lanes) (rest lanes) (sent lanes) };

    ghost at_rest: { (lanes : Self) → are_at_rest lanes ↔ (are_back lanes × NothingRests (nodes lanes) (rest lanes)) };

    ghost stay_out: { (lanes : Self) (old new : List Self.End) → are_out lanes old → AllZip Self.End.is_same old new → are_out lanes new };
}
