//! How a cycle is closed.
ghost use Rattle.std.specs.Prelude.{◌≡◌, ◌<◌, ◌≤◌, ◌^◌, IfOk, OnErr};
ghost use Rattle.event_key.specs.Stamps.{end_stamp};
ghost use Rattle.node_core.specs.Nodes.{IsAsBefore};
ghost use Rattle.node_core.specs.Steps.{HasStepped};
ghost use Rattle.cycle_core.specs.Busy.{NamesBusy};
ghost use Rattle.cycle_core.specs.Works.{IsSmall, WorksOn, IsHeldFrom, IsSettled, IsOpened, AreIdle, AllWorkOn, AreSmall, HaveTerms};

use crate::knowing::know_all;
use model_core::OutOfMemory;
use model_core::model::Model as SimulationModel;
use node_core::{Node, Step};
use sim_spec::Terms;
use std::alloc::Global;

/// A step of a node whose objects have sent few events, and which has few.
pub fn step_small<M: SimulationModel>(
    alloc: Global,
    node: &mut Node<M>,
    bound: u64,
) -> Result<Step, OutOfMemory>
    requires bound { bound ≤ end_stamp node.old.terms.end }
    requires small { IsSmall (M.meaning node.old.model) node.old }
    ensures ok { IfOk result (λ step. HasStepped (M.meaning node.old.model) bound node.old node.new step) }
    ensures err { OnErr result (IsAsBefore node.old node.new) }
{
    node.tells_sent();
    node.tells_keys();
    node.step(alloc, bound)
}

/// Steps a node below a bound that falls to what it sends, until nothing waits below it.
pub fn settle<M: SimulationModel>(
    alloc: Global,
    node: &mut Node<M>,
    bound: u64,
) -> Result<u64, OutOfMemory>
    requires small { IsSmall (M.meaning node.old.model) node.old }
    requires within { bound ≤ end_stamp node.old.terms.end }
    requires from { IsHeldFrom (M.meaning node.old.model) bound node.old }
    ensures settled { IfOk result (λ least. IsSettled (M.meaning node.old.model) bound least node.new) }
    ensures works { WorksOn (M.meaning node.old.model) node.old node.new }
{
    let mut fallen = bound;
    loop {
        match step_small(alloc, node, fallen)? {
            Step::Did { key: _, least } => fallen = fallen.min(least),
            Step::Idle => return Ok(fallen),
        }
    }
}

/// The least stamp of the messages that nodes hold, or the end if none is below it, of which these may hold any.
pub fn open_busy<M: SimulationModel>(nodes: &mut [Node<M>], busy: &[usize], end: u64) -> u64
    requires end { end < 2 ^ 63 }
    requires busy { NamesBusy nodes.old busy.now }
    ensures same { nodes.new ≡ nodes.old }
    ensures opened { IsOpened M.meaning end nodes.old result }
{
    know_all(nodes);
    let mut bound = end;
    for k in 0..busy.len() {
        let place = busy[k];
        bound = bound.min(nodes[place].open_cycle());
    }
    bound
}

/// The least stamp of the messages that nodes hold, or the end where none is below it.
pub fn open_all<M: SimulationModel>(nodes: &mut [Node<M>], end: u64) -> u64
    requires { end < 2 ^ 63 }
    ensures same { nodes.new ≡ nodes.old }
    ensures opened { IsOpened M.meaning end nodes.old result }
{
    let mut bound = end;
    for node in nodes.iter_mut() {
        bound = bound.min(node.open_cycle());
    }
    bound
}

/// Settles nodes one after another: a node that is idle stays so as the bound falls.
pub fn settle_all<M: SimulationModel>(
    alloc: Global,
    nodes: &mut [Node<M>],
    terms: Terms,
    bound: u64,
) -> Result<u64, OutOfMemory>
    requires small { AreSmall M.meaning nodes.old }
    requires terms { HaveTerms terms nodes.old }
    requires opened { IsOpened M.meaning (end_stamp terms.end) nodes.old bound }
    ensures opened { IfOk result (λ least. IsOpened M.meaning (end_stamp terms.end) nodes.new least) }
    ensures idle { IfOk result (λ least. AreIdle M.meaning least nodes.new) }
    ensures works { AllWorkOn M.meaning nodes.old nodes.new }
{
    let mut least = bound;
    for node in nodes.iter_mut() {
        least = settle(alloc, node, least)?;
    }
    Ok(least)
}
