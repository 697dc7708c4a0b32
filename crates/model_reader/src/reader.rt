//! What a program asks of a reader of models.
ghost use Rattle.std.specs.Prelude.{◌≡◌, Ok, IfOk, IfErr};
ghost use Rattle.model_reader.specs.Checks.{Fails};
ghost use Rattle.model_reader.specs.Readings.{Reading, ReadingLaws, as_read};

use crate::refusal::Refusal;
use model_core::model::Model as SimulationModel;
use run_tally::Tally;
use sim_spec::Terms;
use std::alloc::Global;

/// A reader of models.
pub trait ModelReader {
    /// The models that it reads.
    type Model: SimulationModel;

    /// What is summed up of their runs for `totals`.
    type Tally: Tally<Self::Model>;

    /// Which bytes are which model with which terms or are refused and why, and what the codes of refusals are called.
    ghost reading: { Reading };

    /// The model and the terms of a text, or the first check that it fails. An error tells nothing of the text if memory
    /// ran out.
    fn read(&self, alloc: Global, bytes: &[u8]) -> Result<(Self::Model, Terms), Refusal>
        ensures read { IfOk result (λ read. reading.read bytes.now ≡ Ok (as_read Self.Model.meaning Self.Tally.lines read.0 read.1)) }
        ensures refused { IfErr result (λ refusal. Fails refusal (reading.read bytes.now)) };

    /// What the code of a refusal is called.
    fn code_name(&self, code: u8) -> &'static str
        ensures { result.now ≡ reading.code_name code };

    /// What each reader keeps.
    ghost laws: { ReadingLaws reading.read };
}
