//! A state that was saved.
use model_core::model::Model;
use sim_spec::{State, Terms};

/// A state, with the model and the terms of its simulation.
#[derive(Drop)]
pub struct Saved<M: Model> {
    pub model: M,
    pub terms: Terms,
    pub state: State,
}
