//! Laws of saved runs. Each function does nothing: its contract is the law.
ghost use Rattle.run_tally.specs.Tallies.{TotalsOf};
ghost use Rattle.model_program.specs.SavedRuns.{RecordsAreNoStates, SavedRuns};

use model_core::model::{Model, keeps_laws};
use model_reader::ModelReader;
use run_save::law_written;
use sim_spec::Terms;
use sim_spec::laws::law_initial;
use sim_text::laws::law_goes_on;

/// What is told of the first cycles, and then of the simulation from the text of the state after them, is what is told of
/// the whole run, and ends as it does, whatever reads the model.
pub fn law_saved_runs<T: ModelReader, M: Model>(model: &M, terms: &Terms)
    ensures { (totals : TotalsOf) → SavedRuns T.reading.read (record { meaning = M.meaning model.now; terms = terms.now; totals = totals }) }
{
    keeps_laws(model);
    law_initial(model, terms);
    law_goes_on(model, terms);
    law_written::<T>();
}

/// What `save` prints has one line `state 1` that can begin a state: no record is such a line.
#[tactic(auto, using(crate::proofs::RecordLines::records_are_no_states))]
pub fn law_record_lines()
    ensures { RecordsAreNoStates }
{}
