//! What a team keeps from cycle to cycle.
ghost use Rattle.std.specs.Prelude.{◌≡◌, IfOk};
ghost use Rattle.node_team.specs.Readiness.{IsReady};

use crate::paying::Load;
use horizon_word::WordSeat;
use model_core::OutOfMemory;
use parcel_exchange::Inbox;
use release_lanes::Lanes;
use std::alloc::Global;

/// The lanes between the nodes, an inbox for each, and lists for their seats and for those that have events, whose memory
/// serves cycle after cycle; and what the last cycle did.
#[derive(Drop)]
pub struct Kept<L: Lanes> {
    pub lanes: L,
    pub inboxes: Vec<Inbox>,
    /// Nothing is said of what is in it between cycles.
    pub seats: Vec<WordSeat>,
    /// The places of the nodes that have events, as the last cycle found them. Nothing is said of them between cycles.
    pub busy: Vec<usize>,
    pub load: Load,
}

impl<L: Lanes + Drop> Kept<L> {
    /// Empty inboxes for so many nodes, beside lanes at rest, before the first cycle.
    pub fn new(alloc: Global, lanes: L, nodes: u32) -> Result<Kept<L>, OutOfMemory>
        requires wide { L.nodes lanes ≡ nodes }
        requires rest { L.are_at_rest lanes }
        ensures { IfOk result (IsReady L.nodes L.are_at_rest nodes) }
    {
        let mut inboxes = Vec::with_capacity(alloc, nodes as usize)?;
        for _ in 0..nodes {
            let inbox = Inbox::new(alloc, nodes as usize)?;
            inboxes.push(inbox)?;
        }
        Ok(Kept {
            lanes,
            inboxes,
            seats: Vec::with_capacity(alloc, nodes as usize)?,
            busy: Vec::with_capacity(alloc, nodes as usize)?,
            load: Load::unknown(),
        })
    }
}
