//! A cycle that forks nothing, up to where it is closed: on the calling thread, below a plain bound.
ghost use Rattle.std.specs.Prelude.{◌≡◌, ◌≤◌, IfOk, OnOk, OnErr};
ghost use Rattle.event_key.specs.Stamps.{end_stamp};
ghost use Rattle.sim_spec.specs.State.{State};
ghost use Rattle.node_core.specs.Nodes.{IsAsBefore};
ghost use Rattle.node_core.specs.Steps.{HasStepped};
ghost use Rattle.cycle_core.specs.Busy.{NamesBusy};
ghost use Rattle.cycle_core.specs.Works.{AreIdle, AreSmall, HaveTerms, IsHeldFrom, IsOpened, IsSettled, IsSmall, WorksOn};
ghost use Rattle.cycle_core.specs.Worlds.{IsSameWorld, StandsAt};
ghost use Rattle.node_team.specs.Advances.{HasTold, IsDeep};
ghost use Rattle.node_team.specs.Closes.{HasClosed};
ghost use Rattle.node_team.specs.Forks.{AllHaveRun};

use crate::gate::Gate;
use crate::setting::Setting;
use cycle_core::{World, know, know_all, open_busy, step_small};
use event_key::end_bound;
use model_core::OutOfMemory;
use model_core::model::Model as SimulationModel;
use node_core::{Node, Step};
use sim_spec::Terms;
use std::alloc::Global;
use world_spec::laws::law_world;

/// A step of a node, of which the gate is told.
fn step_told<M: SimulationModel, G: Gate>(
    alloc: Global,
    node: &mut Node<M>,
    bound: u64,
    gate: &G,
) -> Result<Step, OutOfMemory>
    requires bound { bound ≤ end_stamp node.old.terms.end }
    requires small { IsSmall (M.meaning node.old.model) node.old }
    ensures ok { IfOk result (λ step. HasStepped (M.meaning node.old.model) bound node.old node.new step) }
    ensures told { HasTold (G.was_told gate.now node.old.number) node.old node.new }
    ensures err { OnErr result (IsAsBefore node.old node.new) }
{
    match step_small(alloc, node, bound)? {
        Step::Idle => Ok(Step::Idle),
        Step::Did { key, least } => {
            gate.did(node.number(), &key);
            Ok(Step::Did { key, least })
        }
    }
}

/// Advances a node on its own: processes its events below a bound, which falls to what they send, until none is left, and
/// goes on in the order of their keys until `ahead` events were processed in all, or it has none left. Answers the bound.
pub fn advance_alone<M: SimulationModel, G: Gate>(
    alloc: Global,
    node: &mut Node<M>,
    bound: u64,
    ahead: u32,
    gate: &G,
) -> Result<u64, OutOfMemory>
    requires small { IsSmall (M.meaning node.old.model) node.old }
    requires within { bound ≤ end_stamp node.old.terms.end }
    requires from { IsHeldFrom (M.meaning node.old.model) bound node.old }
    ensures settled { IfOk result (λ fallen. IsSettled (M.meaning node.old.model) bound fallen node.new) }
    ensures deep { OnOk result (IsDeep (M.meaning node.old.model) ahead node.old node.new) }
    ensures works { WorksOn (M.meaning node.old.model) node.old node.new }
    ensures entered { G.was_entered gate.now node.old.number }
    ensures told { HasTold (G.was_told gate.now node.old.number) node.old node.new }
{
    gate.enter(node.number());
    let end = end_bound(node.terms().end);
    let mut fallen = bound;
    let mut left = ahead;
    'near: loop {
        match step_told(alloc, node, fallen, gate)? {
            Step::Did { key: _, least } => fallen = fallen.min(least),
            Step::Idle => break,
        }
        left = left.saturating_sub(1);
    }
    'far: for _ in 0..left {
        know(node);
        match step_told(alloc, node, end, gate)? {
            Step::Did { key: _, least } => fallen = fallen.min(least),
            Step::Idle => return Ok(fallen),
        }
    }
    Ok(fallen)
}

/// Advances nodes one after another, of which these have events. A node that is idle below the bound stays so as the bound
/// falls.
fn advance_each<R, M: SimulationModel, G: Gate>(
    setting: &Setting<R, G>,
    nodes: &mut [Node<M>],
    busy: &[usize],
    terms: Terms,
    bound: u64,
) -> Result<u64, OutOfMemory>
    requires small { AreSmall M.meaning nodes.old }
    requires terms { HaveTerms terms nodes.old }
    requires opened { IsOpened M.meaning (end_stamp terms.end) nodes.old bound }
    requires busy { NamesBusy nodes.old busy.now }
    ensures opened { IfOk result (λ fallen. IsOpened M.meaning (end_stamp terms.end) nodes.new fallen) }
    ensures idle { IfOk result (λ fallen. AreIdle M.meaning fallen nodes.new) }
    ensures run { OnOk result (AllHaveRun M.meaning setting.now.ahead nodes.old nodes.new) }
{
    let mut fallen = bound;
    for k in 0..busy.len() {
        let place = busy[k];
        fallen = advance_alone(
            setting.alloc,
            &mut nodes[place],
            fallen,
            setting.ahead,
            setting.gate,
        )?;
    }
    Ok(fallen)
}

/// Advances the nodes of a world that have events and closes the cycle, on the calling thread, without a word that is shared.
/// Answers the bound at which it is closed. After a refusal the world has lost its nodes.
pub fn close_alone<R, M: SimulationModel, G: Gate>(
    setting: &Setting<R, G>,
    world: &mut World<M>,
    busy: &[usize],
) -> Result<u64, OutOfMemory>
    requires stands { (s : State) × StandsAt (M.meaning world.old.model) world.old s }
    requires busy { NamesBusy world.old.nodes busy.now }
    ensures closed { IfOk result (HasClosed M.meaning setting.now.ahead world.old world.new) }
    ensures made { IsSameWorld world.old world.new }
{
    let terms = world.terms();
    law_world(world.model(), &terms);
    let end = end_bound(terms.end);
    let mut nodes = world.take_nodes();
    let all = nodes.as_mut_slice();
    know_all(all);
    let opened = open_busy(all, busy, end);
    let bound = advance_each(setting, all, busy, terms, opened)?;
    world.put_nodes(nodes);
    Ok(bound)
}
