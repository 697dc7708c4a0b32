//! Lists that are kept from one cycle to the next.
ghost use Rattle.std.specs.Prelude.{IfOk};
ghost use Rattle.cycle_core.specs.Blank.{AreBlank, AreBlankLists};

use event_chain::Chain;
use model_core::{Event, OutOfMemory, RecordBuffer};
use node_core::{Committed, empty_parcels};
use std::alloc::Global;

/// Lists that a cycle fills and leaves blank, with their room.
#[derive(Drop)]
pub struct Lists {
    /// What each node commits.
    pub committed: Vec<Committed>,
    /// What arrives at each node.
    pub parcels: Vec<Chain<Event>>,
    /// The places of the nodes that have events after the cycle.
    pub busy: Vec<usize>,
    /// Where records are merged.
    pub spare: RecordBuffer,
    /// Where those of all nodes are put, whatever it holds.
    pub told: RecordBuffer,
}

/// Lists for the commits of so many nodes.
fn blank_commits(alloc: Global, nodes: u32) -> Result<Vec<Committed>, OutOfMemory>
    ensures { IfOk result (λ committed. AreBlank nodes committed.items) }
{
    let mut all = Vec::with_capacity(alloc, nodes as usize)?;
    for _ in 0..nodes {
        all.push_reserved(Committed::new(alloc, nodes)?);
    }
    Ok(all)
}

impl Lists {
    /// Lists for a cycle of so many nodes, in a box.
    pub fn boxed(alloc: Global, nodes: u32) -> Result<Box<Lists>, OutOfMemory>
        ensures { IfOk result (λ lists. AreBlankLists nodes lists.value) }
    {
        let lists = Lists {
            committed: blank_commits(alloc, nodes)?,
            parcels: empty_parcels(alloc, nodes)?,
            busy: Vec::with_capacity(alloc, nodes as usize)?,
            spare: RecordBuffer::new(alloc),
            told: RecordBuffer::new(alloc),
        };
        Ok(Box::new(alloc, lists)?)
    }
}
