//! The model of a text under every seed.
use crate::window_rows::WindowRows;
use model_core::OutOfMemory;
use model_text::{AnyModel, Seeded};
use replications::Seeds;
use std::alloc::Global;
use std::sync::Arc;

/// A model that was read of a text. It is shared by all its replications, and none copies it.
#[derive(Drop)]
pub struct TextSeeds {
    pub model: Arc<AnyModel>,
}

impl Seeds<Seeded, WindowRows> for TextSeeds {
    ghost use Rattle.std.specs.Arc.{arc_value};
    ghost use Rattle.model_text.specs.Meanings.{meaning_under};
    ghost use Rattle.replications.specs.Rows.{window_rows};

    ghost seeded = { λ seeds seed. meaning_under seed (arc_value seeds.model) };

    ghost rows = { λ seeds seed. window_rows (meaning_under seed (arc_value seeds.model)) };

    fn with_seed(&self, alloc: Global, seed: u64) -> Result<Arc<Seeded>, OutOfMemory> {
        let model = self.model.clone()?;
        let seeded = Arc::new(alloc, Seeded::new(model, seed))?;
        Ok(seeded)
    }
}
