//! What a program asks of a reader of models that can be had under any seed.
ghost use Rattle.std.specs.Prelude.{◌≡◌, ◌<◌, ◌^◌, Ok, IfOk, IfErr};
ghost use Rattle.model_reader.specs.Checks.{Fails};
ghost use Rattle.table_program.specs.Families.{FamilyReading, FamilyLaws, family_read};

use crate::family::Family;
use model_core::model::Model as SimulationModel;
use model_reader::Refusal;
use replications::{Rows, Seeds, WindowStart};
use std::alloc::Global;

/// A reader of models that can be had under any seed, and of what a table says of their runs.
pub trait FamilyReader {
    /// The models under a seed.
    type Model: SimulationModel;

    /// What the rows of their runs are.
    type Rows: Rows<Self::Model>;

    /// A model under every seed.
    type Models: Seeds<Self::Model, Self::Rows>;

    /// Which bytes are which models or are refused and why, what the codes of refusals are called, and how a table begins.
    ghost reading: { FamilyReading };

    /// The head line of a table.
    fn head(&self) -> &'static str
        ensures { result.now ≡ reading.head };

    /// Where it is said from which tick on is counted.
    fn window_start(&self) -> WindowStart
        ensures { result ≡ reading.start };

    /// The model of a text under any seed, or the first check that the text fails. An error tells nothing of the text if memory
    /// ran out.
    fn read_family(&self, alloc: Global, bytes: &[u8]) -> Result<Family<Self::Models>, Refusal>
        ensures read { IfOk result (λ family. reading.read bytes.now ≡ Ok (family_read Self.Models.seeded Self.Models.rows family)) }
        ensures refused { IfErr result (λ refusal. Fails refusal (reading.read bytes.now)) }
        ensures seed { IfOk result (λ family. family.seed < 2 ^ 63) };

    /// What the code of a refusal is called.
    fn code_name(&self, code: u8) -> &'static str
        ensures { result.now ≡ reading.code_name code };

    /// What each reader keeps.
    ghost laws: { FamilyLaws reading.read };
}
