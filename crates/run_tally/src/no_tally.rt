//! No sums.
use crate::tally::Tally;
use event_key::Key;
use model_core::model::Model;
use model_core::{OutOfMemory, Part};
use sim_spec::{Stop, Terms};
use std::alloc::Global;

/// Keeps nothing and prints nothing, for models without totals, and for runs of which none are asked.
#[derive(Clone, Copy, Debug, PartialEq, Eq, Drop)]
pub struct NoTally;

impl<M: Model> Tally<M> for NoTally {
    ghost use Rattle.run_tally.specs.Tallies.{no_totals};

    ghost lines = { λ _ _. no_totals };

    ghost sums_up = { λ _ _ _. Unit {0} };

    fn new(_alloc: Global, _model: &M) -> Result<NoTally, OutOfMemory> {
        Ok(NoTally)
    }

    fn add(&mut self, _model: &M, _key: &Key, _parts: &[Part]) {}

    fn put(
        &self,
        _alloc: Global,
        _model: &M,
        _terms: &Terms,
        _stop: &Stop,
        _into: &mut Vec<u8>,
    ) -> Result<(), OutOfMemory> {
        Ok(())
    }
}
