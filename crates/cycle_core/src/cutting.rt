//! How it is found where a cycle is cut.
ghost use Rattle.std.specs.Prelude.{◌≡◌, ◌≤◌, IsTrue, IfOk, IsPermutation, length};
ghost use Rattle.event_key.specs.declared.key.Key.{Key};
ghost use Rattle.key_order.specs.Ascending.{Ascends};
ghost use Rattle.key_order.specs.Keys.{Differ};
ghost use Rattle.world_spec.specs.Answer.{cut_of};
ghost use Rattle.cycle_core.specs.Busy.{NamesBusy};
ghost use Rattle.cycle_core.specs.Cuts.{AreOneWorld, IsCutAt, cut_data};
ghost use Rattle.cycle_core.specs.Gathered.{IsFaultBelow, MayFaultBelow, fault_key, itself, keys_in, processed_in};
ghost use Rattle.cycle_core.specs.Known.{AreKnown};
ghost use Rattle.cycle_core.specs.Leasts.{IsLeastAt, IsLeastUpto, lesser_by};

use crate::cut::Cut;
use crate::knowing::know_all;
use event_key::Key;
use model_core::OutOfMemory;
use model_core::model::Model as SimulationModel;
use node_core::Node;
use std::alloc::Global;

/// The fault of the lesser key, as far as they are there.
fn lesser_fault(found: Option<(Key, u32)>, next: Option<(Key, u32)>) -> Option<(Key, u32)>
    ensures { result ≡ lesser_by fault_key found next }
{
    match (found, next) {
        (Some(first), Some(second)) if second.0.is_before(&first.0) => next,
        (Some(_), _) => found,
        (None, _) => next,
    }
}

/// The least fault of a node, if it is below the bound.
fn fault_below<M: SimulationModel>(node: &Node<M>, bound: u64) -> Option<(Key, u32)>
    ensures { IsLeastAt fault_key (IsFaultBelow M.meaning bound) (MayFaultBelow M.meaning bound) node.now result }
{
    match node.faulted() {
        Some(fault) if fault.0.stamp < bound => Some(fault),
        _ => None,
    }
}

/// The least fault of these nodes that is below the bound.
fn least_fault<M: SimulationModel>(
    nodes: &[Node<M>],
    busy: &[usize],
    bound: u64,
) -> Option<(Key, u32)>
    requires known { AreKnown M.meaning nodes.now }
    requires busy { NamesBusy nodes.now busy.now }
    ensures { IsLeastUpto fault_key (IsFaultBelow M.meaning bound) (MayFaultBelow M.meaning bound) (length nodes.now) nodes.now result }
{
    let mut least = None;
    for k in 0..busy.len() {
        let place = busy[k];
        least = lesser_fault(least, fault_below(&nodes[place], bound));
    }
    least
}

/// Whether these nodes have processed at most so many events that aren't committed.
fn are_within<M: SimulationModel>(nodes: &[Node<M>], busy: &[usize], left: u64) -> bool
    requires { NamesBusy nodes.now busy.now }
    ensures { IsTrue result → processed_in nodes.now ≤ left }
{
    let mut left = left;
    for k in 0..busy.len() {
        let place = busy[k];
        let processed = nodes[place].tallies().left;
        if processed > left {
            return false;
        }
        left -= processed;
    }
    true
}

/// The keys of the processed events below the bound, in order.
fn sorted_keys<M: SimulationModel>(
    alloc: Global,
    nodes: &[Node<M>],
    bound: u64,
) -> Result<Vec<Key>, OutOfMemory>
    requires { Differ itself (keys_in bound nodes.now) }
    ensures permutes { IfOk result (λ keys. IsPermutation (keys_in bound nodes.now) keys.items) }
    ensures ordered { IfOk result (λ keys. Ascends itself keys.items) }
{
    let mut keys = Vec::new(alloc);
    for node in nodes {
        node.keys_below(bound, &mut keys)?;
    }
    // each node's keys are in order, and a stable sort merges such runs
    keys.sort()?;
    Ok(keys)
}

/// The cut of keys that come before the fault, when so many events are left.
fn cut_keys(left: u64, keys: &[Key], fault: Option<(Key, u32)>) -> Cut
    ensures { cut_data result ≡ cut_of left keys.now fault }
{
    let many = keys.len() as u64;
    if left < many {
        return Cut {
            below: Some(keys[left as usize]),
            fault: None,
            limited: true,
        };
    }
    match fault {
        None => Cut {
            below: None,
            fault: None,
            limited: false,
        },
        Some((key, _)) => Cut {
            below: Some(key),
            fault: if left == many { None } else { fault },
            limited: left == many,
        },
    }
}

/// Where the processed events of these nodes below the bound are cut, when so many events are left. It gathers no keys
/// if there is no fault and all that is processed fits, and then looks at those nodes alone that have events.
pub fn cut_nodes<M: SimulationModel>(
    alloc: Global,
    nodes: &[Node<M>],
    busy: &[usize],
    bound: u64,
    left: u64,
) -> Result<Cut, OutOfMemory>
    requires world { AreOneWorld nodes.now }
    requires busy { NamesBusy nodes.now busy.now }
    ensures { IfOk result (IsCutAt M.meaning left nodes.now bound) }
{
    know_all(nodes);
    let fault = least_fault(nodes, busy, bound);
    if fault.is_none() && are_within(nodes, busy, left) {
        return Ok(Cut {
            below: None,
            fault: None,
            limited: false,
        });
    }
    let mut keys = sorted_keys(alloc, nodes, bound)?;
    if let Some((first, _)) = fault {
        keys.retain(|key| key.is_before(&first));
    }
    Ok(cut_keys(left, keys.as_slice(), fault))
}
