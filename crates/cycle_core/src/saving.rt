//! What is read out of nodes: the states of their objects, and the events that wait.
ghost use Rattle.std.specs.Prelude.{◌≡◌, ℕ, ◌<◌, IfOk};
ghost use Rattle.key_order.specs.Keys.{KeysDiffer};
ghost use Rattle.key_order.specs.Pending.{in_order};
ghost use Rattle.sim_spec.specs.declared.terms.Terms.{Terms};
ghost use Rattle.node_core.specs.Homes.{home_of};
ghost use Rattle.node_core.specs.Nodes.{IsAsBefore};
ghost use Rattle.cycle_core.specs.Places.{EachPair};
ghost use Rattle.cycle_core.specs.Snapshots.{AllUndone, AreRead, AreStatesOf, CanBeRead, IsReadOf, waiting_in};
ghost use Rattle.cycle_core.specs.Worlds.{AreNodesOf};

use model_core::model::Model as SimulationModel;
use model_core::{Event, OutOfMemory};
use node_core::{Homes, Node};
use sim_spec::{ObjectState, State};
use std::alloc::Global;

/// Undoes all that these nodes have processed.
fn undo_all<M: SimulationModel>(nodes: &mut [Node<M>])
    ensures { AllUndone M.meaning nodes.old nodes.new }
{
    for node in nodes.iter_mut() {
        node.undo_from(0);
    }
}

/// The events that wait at these nodes, in the order of their keys.
fn pending_of<M: SimulationModel>(
    alloc: Global,
    nodes: &mut [Node<M>],
) -> Result<Vec<Event>, OutOfMemory>
    requires { KeysDiffer (waiting_in nodes.old) }
    ensures same { EachPair IsAsBefore nodes.old nodes.new }
    ensures pending { IfOk result (λ pending. pending.items ≡ in_order (waiting_in nodes.old)) }
{
    let mut pending = Vec::new(alloc);
    for node in nodes.iter_mut() {
        node.put_pending(&mut pending)?;
    }
    // each node's events are in order, and a stable sort merges such runs
    pending.sort_by_key(|event| event.key)?;
    Ok(pending)
}

/// The state of each object of a model.
fn objects_of<M: SimulationModel>(
    alloc: Global,
    model: &M,
    homes: &Homes,
    nodes: &[Node<M>],
) -> Result<Vec<ObjectState>, OutOfMemory>
    requires nodes { (terms : Terms) × AreNodesOf model.now terms homes.now nodes.now }
    requires homes { (object : ℕ) → object < (M.meaning model.now).objects → home_of homes.now object < homes.now.nodes }
    ensures { IfOk result (λ objects. AreStatesOf homes.now nodes.now (M.meaning model.now).objects objects.items) }
{
    let count = model.objects();
    let mut objects = Vec::with_capacity(alloc, count as usize)?;
    for object in 0..count {
        let home = homes.home(object);
        let node = &nodes[home as usize];
        let cells = node.cells(object).copy(alloc)?;
        objects.push(ObjectState {
            cells,
            sent: node.sent(object),
        })?;
    }
    Ok(objects)
}

/// The state that these nodes have, and in which so many events are done. What is processed is undone first.
pub fn state_of<M: SimulationModel>(
    alloc: Global,
    model: &M,
    homes: &Homes,
    nodes: &mut [Node<M>],
    count: u64,
) -> Result<State, OutOfMemory>
    requires { CanBeRead M.meaning model.now homes.now nodes.old }
    ensures read { AreRead M.meaning nodes.old nodes.new }
    ensures state { IfOk result (IsReadOf M.meaning model.now homes.now count nodes.old nodes.new) }
{
    undo_all(nodes);
    let pending = pending_of(alloc, nodes)?;
    let objects = objects_of(alloc, model, homes, nodes)?;
    Ok(State {
        objects,
        pending,
        count,
    })
}
