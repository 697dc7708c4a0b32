//! A model under another seed.
ghost use Rattle.std.specs.Prelude.{◌≡◌, ◌<◌, ◌^◌};
ghost use Rattle.std.specs.Arc.{arc_value};
ghost use Rattle.model_text.specs.Meanings.{meaning_under};

use crate::model::AnyModel;
use delta_exchange::{Cells, OutOfMemory};
use model_core::model::Model as SimulationModel;
use model_core::{Effect, Ending, Event, Start};
use random_streams::Stream;
use std::alloc::Global;
use std::sync::Arc;

/// A model with a seed in place of its own, and the same parts: nothing of them is copied.
#[derive(Drop)]
pub struct Seeded {
    model: Arc<AnyModel>,
    seed: u64,
    ghost in_range: { seed < 2 ^ 63 },
}

impl Seeded {
    /// The model with this seed, which is below 2^63.
    pub fn new(model: Arc<AnyModel>, seed: u64) -> Seeded
        requires { seed < 2 ^ 63 }
        ensures { ⟦<Seeded as SimulationModel>⟧.meaning result ≡ meaning_under seed (arc_value model) }
    {
        Seeded { model, seed }
    }
}

impl SimulationModel for Seeded {
    ghost use Rattle.std.specs.Arc.{arc_value};
    ghost use Rattle.model_text.specs.Meanings.{laws_under, meaning_under};

    ghost meaning = { λ seeded. meaning_under seeded.seed (arc_value seeded.model) };

    ghost laws = { λ seeded. laws_under seeded.seed seeded.in_range (arc_value seeded.model) };

    fn objects(&self) -> u32 {
        self.model.objects()
    }

    fn starts(&self) -> u32 {
        self.model.starts()
    }

    fn start(&self, i: u32) -> Start {
        self.model.start(i)
    }

    fn first_cells(&self, alloc: Global, object: u32) -> Result<Cells, OutOfMemory> {
        self.model.first_cells(alloc, object)
    }

    fn is_lawful(&self, object: u32, cells: &Cells) -> bool {
        self.model.is_lawful(object, cells)
    }

    fn respond(
        &self,
        words: &mut Stream,
        object: u32,
        cells: &Cells,
        event: &Event,
        sheet: &mut Effect,
    ) -> Result<Ending, OutOfMemory> {
        self.model
            .respond_under(self.seed, words, object, cells, event, sheet)
    }

    fn put_name(&self, alloc: Global, object: u32, into: &mut Vec<u8>) -> Result<(), OutOfMemory> {
        self.model.put_name(alloc, object, into)
    }

    fn word(&self, number: u32) -> Option<&'static str> {
        self.model.word(number)
    }

    fn fault(&self, code: u32) -> Option<&'static str> {
        self.model.fault(code)
    }
}
