//! Laws of saved runs and of numbers. Each function does nothing: its contract is the law.
ghost use Rattle.btb_program.specs.Numbers.{Numbers};
ghost use Rattle.btb_program.specs.SavedRuns.{SavedRuns};
ghost use Rattle.run_tally.specs.Tallies.{TotalsOf};

use model_core::model::Model;
pub use model_program::laws::law_record_lines;
use model_text::ModelTexts;
use sim_spec::Terms;

/// What is told of the first cycles, and then of the simulation from the text of the state after them, is what is told of
/// the whole run, and ends as it does.
pub fn law_saved_runs<M: Model>(model: &M, terms: &Terms)
    ensures { (totals : TotalsOf) → SavedRuns (record { meaning = M.meaning model.now; terms = terms.now; totals = totals }) }
{
    model_program::laws::law_saved_runs::<ModelTexts, M>(model, terms);
}

/// What the names of limits, codes and statuses stand for.
pub fn law_numbers()
    ensures { Numbers }
{}
