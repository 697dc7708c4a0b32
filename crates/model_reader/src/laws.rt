//! A law of readers. The function does nothing: its contract is the law.
ghost use Rattle.model_reader.specs.Readings.{ReadsOnce};

use crate::reader::ModelReader;

/// Reading is a function: if the same bytes are read twice, the model and the terms mean the same, or the refusal is the
/// same.
pub fn law_read_once<T: ModelReader>()
    ensures { ReadsOnce T.reading.read }
{}
