//! The rows of a table of windows.
use event_key::Key;
use model_core::model::Model as SimulationModel;
use model_core::{OutOfMemory, Part};
use model_text::Seeded;
use replications::{Rows, RunEnd, Windows};
use sim_spec::Terms;
use std::alloc::Global;

/// What each object of a model of any kind did within a window of time.
#[derive(Drop)]
pub struct WindowRows {
    windows: Windows,
}

impl Rows<Seeded> for WindowRows {
    ghost use Rattle.std.specs.Prelude.{◌≡◌};
    ghost use Rattle.replications.specs.Rows.{window_rows};
    ghost use Rattle.replications.specs.Tables.{windows_of};

    ghost rows_of = { λ model. window_rows (⟦<Seeded as SimulationModel>⟧.meaning model) };

    ghost sums_up = { λ model first_tick kept records. kept.windows ≡ windows_of first_tick (⟦<Seeded as SimulationModel>⟧.meaning model).objects records };

    fn new(alloc: Global, model: &Seeded, first_tick: u64) -> Result<WindowRows, OutOfMemory> {
        let windows = Windows::new(alloc, model.objects(), first_tick)?;
        Ok(WindowRows { windows })
    }

    fn add(&mut self, _model: &Seeded, key: &Key, parts: &[Part]) {
        self.windows.add(key, parts);
    }

    fn put(
        &self,
        alloc: Global,
        model: &Seeded,
        terms: &Terms,
        end: &RunEnd,
        into: &mut Vec<u8>,
    ) -> Result<(), OutOfMemory> {
        self.windows.put_rows(alloc, model, terms, end, into)?;
        Ok(())
    }
}
