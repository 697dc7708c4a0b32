//! A simulation beside its model.
use model_core::model::Model;
use std::sync::Arc;

/// A simulation, and its model, which names what the simulation tells.
#[derive(Drop)]
pub(crate) struct Begun<M: Model, E> {
    pub model: Arc<M>,
    pub run: E,
}
