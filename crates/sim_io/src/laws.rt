//! Laws of texts. Each function does nothing: its contract is the law.
ghost use Rattle.sim_io.specs.CycleTexts.{PlainText};

use model_core::model::Model;
use sim_spec::Terms;

/// Where the cycles are not told, the text of the buckets is that of the run, event by event.
pub fn law_plain_text<M: Model>(model: &M, terms: &Terms)
    ensures { PlainText (M.meaning model.now) terms.now }
{
    sim_spec::laws::law_bucket(model, terms);
}
