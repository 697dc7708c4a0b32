//! What is to be simulated.
use crate::run::machine::Machine;
use model_core::model::Model;
use sim_spec::Terms;
use sim_text::Telling;

/// A simulation of a model from its start: what runs it, and what is told of it.
#[derive(Drop)]
pub struct Job<M: Model> {
    pub model: M,
    pub terms: Terms,
    pub machine: Machine,
    pub telling: Telling,
}
