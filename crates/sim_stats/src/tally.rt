//! The totals as a tally of any model.
use crate::totals::Totals;
use event_key::Key;
use model_core::model::Model;
use model_core::{OutOfMemory, Part};
use run_tally::Tally;
use sim_spec::{Stop, Terms};
use std::alloc::Global;

impl<M: Model> Tally<M> for Totals {
    ghost use Rattle.std.specs.Prelude.{◌≡◌};
    ghost use Rattle.sim_stats.specs.Totals.{told_by_objects, totals_of};

    ghost lines = { λ model _. told_by_objects (M.meaning model) };

    ghost sums_up = { λ model totals records. totals ≡ totals_of (M.meaning model).objects records };

    fn new(alloc: Global, model: &M) -> Result<Totals, OutOfMemory> {
        Totals::new(alloc, model.objects())
    }

    fn add(&mut self, _model: &M, key: &Key, parts: &[Part]) {
        Totals::add(self, key, parts);
    }

    fn put(
        &self,
        alloc: Global,
        model: &M,
        _terms: &Terms,
        _stop: &Stop,
        into: &mut Vec<u8>,
    ) -> Result<(), OutOfMemory> {
        for object in 0..model.objects() {
            model.put_name(alloc, object, into)?;
            self.of_object(object).put(alloc, into)?;
        }
        Ok(())
    }
}
