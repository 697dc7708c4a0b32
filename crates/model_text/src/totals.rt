//! What `totals` tells of the models of these texts.
use crate::model::AnyModel;
use event_key::Key;
use model_core::{OutOfMemory, Part};
use run_tally::Tally;
use sim_spec::{Stop, Terms};
use sim_stats::Totals;
use std::alloc::Global;

/// The sums of each object of a model of any kind.
// the tally that a reader names can't be one whose `impl` is for all models
#[derive(Drop)]
pub struct ModelTotals {
    totals: Totals,
}

impl Tally<AnyModel> for ModelTotals {
    ghost use Rattle.std.specs.Prelude.{◌≡◌};
    ghost use Rattle.model_text.specs.Meanings.{meaning_of};
    ghost use Rattle.sim_stats.specs.Totals.{told_by_objects, totals_of};

    ghost lines = { λ model _. told_by_objects (meaning_of model) };

    ghost sums_up = { λ model kept records. kept.totals ≡ totals_of (meaning_of model).objects records };

    fn new(alloc: Global, model: &AnyModel) -> Result<ModelTotals, OutOfMemory> {
        let totals = <Totals as Tally<AnyModel>>::new(alloc, model)?;
        Ok(ModelTotals { totals })
    }

    fn add(&mut self, model: &AnyModel, key: &Key, parts: &[Part]) {
        <Totals as Tally<AnyModel>>::add(&mut self.totals, model, key, parts);
    }

    fn put(
        &self,
        alloc: Global,
        model: &AnyModel,
        terms: &Terms,
        stop: &Stop,
        into: &mut Vec<u8>,
    ) -> Result<(), OutOfMemory> {
        <Totals as Tally<AnyModel>>::put(&self.totals, alloc, model, terms, stop, into)
    }
}
