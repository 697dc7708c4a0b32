//! The state of a simulation, taken out of its nodes.
use model_core::{Cells, Event};
use std::marker::Model;

/// The state of an object: its cells, and how many events it has sent.
#[derive(Drop)]
pub struct ObjectState {
    pub cells: Cells,
    pub sent: u64,
}

impl Model for ObjectState {
    ghost use Rattle.sim_spec.specs.Firing.{ObjectState};

    ghost Value = { ObjectState };

    ghost view = { λ o. record { cells = o.cells.contents; sent = o.sent } };
}

/// A state of a simulation: the states of its objects, the pending events in the order of their keys, and how many events
/// are done.
#[derive(Drop)]
pub struct State {
    pub objects: Vec<ObjectState>,
    pub pending: Vec<Event>,
    pub count: u64,
}

impl Model for State {
    ghost use Rattle.sim_spec.specs.State.{State};

    ghost Value = { State };

    ghost view = { λ s. record {
      objects = s.objects.items;
      pending = s.pending.items;
      count = s.count;
    } };
}
