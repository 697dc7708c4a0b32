//! The reader of model texts, for programs that write tables.
use crate::text_seeds::TextSeeds;
use crate::window_rows::WindowRows;
use model_core::model::Model as SimulationModel;
use model_text::{Refusal, Seeded, code_name, read_family};
use replications::{WINDOW_HEAD, WindowStart};
use std::alloc::Global;
use std::sync::Arc;
use table_program::{Family, FamilyReader};

/// How many bytes a row has at most: a seed of 19 digits, a name of 16 bytes, sums of 20 digits or 39, and the rest.
const ROW_BYTES: u64 = 274;

/// The reader of model texts, and of the windows of their objects.
#[derive(Clone, Copy)]
pub struct ReplicateTexts;

impl FamilyReader for ReplicateTexts {
    ghost use Rattle.replicate_program.specs.ReplicateTexts.{replicate_texts, replicate_laws};

    type Model = Seeded;

    type Rows = WindowRows;

    type Models = TextSeeds;

    ghost reading = { replicate_texts };

    ghost laws = { replicate_laws };

    fn head(&self) -> &'static str {
        WINDOW_HEAD
    }

    fn window_start(&self) -> WindowStart {
        WindowStart::Words
    }

    #[tactic(auto, unfolding(crate::specs::ReplicateTexts::windows_of_text))]
    fn read_family(&self, alloc: Global, bytes: &[u8]) -> Result<Family<TextSeeds>, Refusal> {
        let read = read_family(alloc, bytes)?;
        let row_bytes = u64::from(read.model.objects()) * ROW_BYTES;
        let model = Arc::new(alloc, read.model)?;
        Ok(Family {
            models: TextSeeds { model },
            terms: read.terms,
            seed: read.seed,
            row_bytes,
        })
    }

    fn code_name(&self, code: u8) -> &'static str {
        code_name(code)
    }
}
