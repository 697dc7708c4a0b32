//! Laws of every run. Each function does nothing: its contract is the law.
ghost use Rattle.run_laws.specs.RunLaws.{StatesAreTheRuns, RecordsAscend, EventsAreCaused, EventsBalance, LongerRunGoesOn};

use model_core::model::{Model, keeps_laws};
use sim_spec::Terms;

/// The states that are spoken of are those of the run: its last state is reached, with its records on the way, and
/// each reached state is lawful.
pub fn law_reached<M: Model>(model: &M, terms: &Terms)
    ensures { StatesAreTheRuns (M.meaning model.now) terms.now }
{
    keeps_laws(model);
}

/// The records of a run are in strictly ascending order of their keys.
pub fn law_order<M: Model>(model: &M, terms: &Terms)
    ensures { RecordsAscend (M.meaning model.now) terms.now }
{
    keeps_laws(model);
}

/// Causality: each event that happens is an initial one of the model, or the very event that one before it sent, to a later
/// stamp. And each initial event, and each that was sent, has happened or is pending.
pub fn law_causality<M: Model>(model: &M, terms: &Terms)
    ensures { EventsAreCaused (M.meaning model.now) terms.now }
{
    keeps_laws(model);
}

/// Events are neither lost nor doubled: after any number of them, those that have happened and those that are pending are the
/// initial ones and those that were sent, each as often.
pub fn law_flow<M: Model>(model: &M, terms: &Terms)
    ensures { EventsBalance (M.meaning model.now) terms.now }
{}

/// A longer run begins with the shorter one: under a later end or a greater limit the records of the shorter run come
/// first, and then those of a run from its last state.
pub fn law_prefix<M: Model>(model: &M)
    ensures { LongerRunGoesOn (M.meaning model.now) }
{}
