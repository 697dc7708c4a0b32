//! Laws of texts. Each function does nothing: its contract is the law.
ghost use Rattle.sim_text.specs.WholeTexts.{GoesOnAfterCycles};

use model_core::model::Model;
use sim_spec::Terms;
use sim_spec::laws::law_bucket;

/// What is told of the first cycles, and then of the simulation from the state after them, is what is told of the whole.
pub fn law_goes_on<M: Model>(model: &M, terms: &Terms)
    ensures { GoesOnAfterCycles (M.meaning model.now) terms.now }
{
    law_bucket(model, terms);
}
