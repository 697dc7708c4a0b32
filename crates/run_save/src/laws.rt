//! Laws of state texts. Each function does nothing: its contract is the law.
ghost use Rattle.run_save.specs.SavedLaws.{ReadIsWritten, WrittenIsRead};

use model_reader::ModelReader;

/// The text of a lawful state is read as that state, with its model and terms.
#[tactic(auto, using(crate::proofs::WrittenLaw::written_is_read))]
pub fn law_written<T: ModelReader>()
    ensures { WrittenIsRead T.reading.read }
{}

/// A text that is read is that of the state which it gives, with the bytes of the model.
#[tactic(auto, using(crate::proofs::ReadLaw::read_is_written))]
pub fn law_read<T: ModelReader>()
    ensures { ReadIsWritten T.reading.read }
{}
