//! Nodes at the start, with their objects, and what arrives there first.
ghost use Rattle.std.specs.Prelude.{◌≡◌, ◌<◌, ◌≤◌, ◌+◌, ◌++◌, ◌∷◌, ◌^◌, [], List, length, map, slice_index_or, slice_set, IfOk, OnOk};
ghost use Rattle.std.specs.List.{AllByRecursion};
ghost use Rattle.std.specs.Arc.{arc_value};
ghost use Rattle.model_core.specs.declared.limits.TheConstants.{MOST_NODES};
ghost use Rattle.model_core.specs.Meaning.{MeaningLaws};
ghost use Rattle.model_core.specs.declared.event.Event.{Event};
ghost use Rattle.sim_spec.specs.State.{Lawful, initial_state};
ghost use Rattle.sim_spec.specs.declared.terms.Terms.{Terms};
ghost use Rattle.node_core.specs.Calls.{IsNewNode};
ghost use Rattle.cycle_core.specs.Worlds.{IsNodeOf};
ghost use Rattle.cycle_core.specs.Starts.{AreAllNew, ArePartsOf, ArePlaced, ArePlacedBy, CanBegin, CanSet, HaveStatesFrom, first_events, world_with};

use event_chain::{Cell, Chain};
use event_firing::first_event;
use model_core::model::{Model as SimulationModel, keeps_laws};
use model_core::{Event, OutOfMemory};
use node_core::{Homes, Node, empty_parcels};
use sim_spec::{ObjectState, Placement, State, Terms};
use std::alloc::Global;
use std::sync::Arc;

/// The homes of a model's objects, as these are placed on so many nodes.
pub fn placed_homes<M: SimulationModel>(
    alloc: Global,
    model: &M,
    nodes: u32,
    placement: Placement,
) -> Result<Arc<Homes>, OutOfMemory>
    requires low { 1 ≤ nodes }
    requires high { nodes ≤ MOST_NODES }
    ensures nodes { IfOk result (λ homes. (arc_value homes).nodes ≡ nodes) }
    ensures placed { IfOk result (λ homes. ArePlaced (M.meaning model.now) (arc_value homes)) }
    ensures by { IfOk result (λ homes. ArePlacedBy placement (arc_value homes)) }
{
    let homes = Homes::new(alloc, model.objects(), nodes, placement)?;
    Ok(Arc::new(alloc, homes)?)
}

/// Puts an event at the back of the chain at this place.
fn add_at(parcels: &mut Vec<Chain<Event>>, place: usize, cell: Cell<Event>)
    requires place { place < length parcels.old.items }
    requires few { length (slice_index_or parcels.old.items place []) + 1 < 2 ^ 60 }
    ensures { parcels.new.items ≡ slice_set parcels.old.items place (slice_index_or parcels.old.items place [] ++ cell ∷ []) }
{
    parcels[place].push_back(cell);
}

/// Puts an event at the back of the chain of its home.
fn put_home(
    alloc: Global,
    homes: &Homes,
    event: Event,
    parcels: &mut Vec<Chain<Event>>,
) -> Result<(), OutOfMemory>
    requires home { event.key.dest < length homes.now.homes }
    requires parts { (es : List Event) × (length es + 1 < 2 ^ 60) × ArePartsOf homes.now es parcels.old.items }
    ensures { (es : List Event) → ArePartsOf homes.now es parcels.old.items → OnOk result (ArePartsOf homes.now (es ++ event ∷ []) parcels.new.items) }
{
    let home = homes.home(event.key.dest);
    let Ok(cell) = Cell::new(alloc, event) else {
        return Err(OutOfMemory);
    };
    add_at(parcels, home as usize, cell);
    Ok(())
}

/// The initial events, each in the chain of its home.
fn first_parcels<M: SimulationModel>(
    alloc: Global,
    model: &M,
    homes: &Homes,
) -> Result<Vec<Chain<Event>>, OutOfMemory>
    requires laws { MeaningLaws (M.meaning model.now) }
    requires objects { length homes.now.homes ≡ (M.meaning model.now).objects }
    ensures { IfOk result (λ parcels. ArePartsOf homes.now (first_events (M.meaning model.now) (M.meaning model.now).starts) parcels.items) }
{
    let mut parcels = empty_parcels(alloc, homes.nodes())?;
    for i in 0..model.starts() {
        put_home(alloc, homes, first_event(model, i), &mut parcels)?;
    }
    Ok(parcels)
}

/// Events, each in the chain of its home.
fn parcels_of(
    alloc: Global,
    homes: &Homes,
    events: &[Event],
) -> Result<Vec<Chain<Event>>, OutOfMemory>
    requires homes { AllByRecursion (λ e. e.key.dest < length homes.now.homes) events.now }
    requires few { length events.now < 2 ^ 60 }
    ensures { IfOk result (λ parcels. ArePartsOf homes.now events.now parcels.items) }
{
    let mut parcels = empty_parcels(alloc, homes.nodes())?;
    for event in events {
        put_home(alloc, homes, *event, &mut parcels)?;
    }
    Ok(parcels)
}

/// The new node of a number.
fn first_node<M: SimulationModel>(
    alloc: Global,
    model: &Arc<M>,
    terms: Terms,
    number: u32,
    homes: &Arc<Homes>,
) -> Result<Node<M>, OutOfMemory>
    requires number { number < (arc_value homes.now).nodes }
    requires objects { length (arc_value homes.now).homes ≡ (M.meaning (arc_value model.now)).objects }
    ensures made { IfOk result (IsNodeOf (arc_value model.now) terms (arc_value homes.now) number) }
    ensures new { IfOk result (IsNewNode (M.meaning (arc_value model.now))) }
{
    Node::new(alloc, Arc::clone(model)?, terms, number, Arc::clone(homes)?)
}

/// New nodes for all homes, in order.
fn first_nodes<M: SimulationModel>(
    alloc: Global,
    model: &Arc<M>,
    terms: Terms,
    homes: &Arc<Homes>,
) -> Result<Vec<Node<M>>, OutOfMemory>
    requires { length (arc_value homes.now).homes ≡ (M.meaning (arc_value model.now)).objects }
    ensures { IfOk result (λ nodes. AreAllNew M.meaning (arc_value model.now) terms (arc_value homes.now) nodes.items) }
{
    let count = homes.nodes();
    let mut nodes = Vec::with_capacity(alloc, count as usize)?;
    for number in 0..count {
        nodes.push_reserved(first_node(alloc, model, terms, number, homes)?);
    }
    Ok(nodes)
}

/// Gives each object its state. It takes no memory.
fn set_objects<M: SimulationModel>(nodes: &mut [Node<M>], homes: &Homes, objects: Vec<ObjectState>)
    requires { (model : M) × (terms : Terms) × CanSet M.meaning model terms homes.now objects.items nodes.old }
    ensures { (model : M) (terms : Terms) → CanSet M.meaning model terms homes.now objects.items nodes.old
        → HaveStatesFrom M.meaning model terms homes.now 0 objects.items nodes.new }
{
    let mut objects = objects;
    let mut object = homes.objects();
    while let Some(state) = objects.pop() {
        let ObjectState { cells, sent } = state;
        object -= 1;
        let home = homes.home(object);
        nodes[home as usize].set_object(object, cells, sent);
    }
}

/// New nodes, and the initial events, each in the chain of its home.
pub fn nodes_at_start<M: SimulationModel>(
    alloc: Global,
    model: &Arc<M>,
    terms: Terms,
    homes: &Arc<Homes>,
) -> Result<(Vec<Node<M>>, Vec<Chain<Event>>), OutOfMemory>
    requires { ArePlaced (M.meaning (arc_value model.now)) (arc_value homes.now) }
    ensures { IfOk result (λ made. CanBegin M.meaning (world_with (arc_value model.now) terms (arc_value homes.now) made.0.items 0)
        made.1.items (initial_state (M.meaning (arc_value model.now)))) }
{
    keeps_laws(&**model);
    let parcels = first_parcels(alloc, &**model, homes)?;
    let nodes = first_nodes(alloc, model, terms, homes)?;
    Ok((nodes, parcels))
}

/// New nodes with the objects of a state, and its events, each in the chain of its home.
pub fn nodes_of_state<M: SimulationModel>(
    alloc: Global,
    model: &Arc<M>,
    terms: Terms,
    homes: &Arc<Homes>,
    state: State,
) -> Result<(Vec<Node<M>>, Vec<Chain<Event>>), OutOfMemory>
    requires placed { ArePlaced (M.meaning (arc_value model.now)) (arc_value homes.now) }
    requires lawful { Lawful (M.meaning (arc_value model.now)) terms state }
    ensures { IfOk result (λ made. CanBegin M.meaning (world_with (arc_value model.now) terms (arc_value homes.now) made.0.items state.count)
        made.1.items state) }
{
    let State {
        objects,
        pending,
        count: _,
    } = state;
    let parcels = parcels_of(alloc, homes, pending.as_slice())?;
    let mut nodes = first_nodes(alloc, model, terms, homes)?;
    set_objects(nodes.as_mut_slice(), homes, objects);
    Ok((nodes, parcels))
}
