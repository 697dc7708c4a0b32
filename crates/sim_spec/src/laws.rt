//! Laws of the definitions. Each function does nothing: its contract is the law.
ghost use Rattle.sim_spec.specs.HorizonLaws.{BucketLaw, CyclesLaw, MovesLaw, EndsLaw, HorizonLaw, ObjectsLaw};
ghost use Rattle.sim_spec.specs.Laws.{OldOrder, NextLawful, RunEnds};
ghost use Rattle.sim_spec.specs.State.{Lawful, initial_state};

use crate::terms::Terms;
use model_core::model::{Model, keeps_laws};

/// Keys of rank 0 are compared as their other four fields are.
pub fn law_old_order()
    ensures { OldOrder }
{}

/// A simulation begins in a lawful state.
pub fn law_initial<M: Model>(model: &M, terms: &Terms)
    ensures { Lawful (M.meaning model.now) terms.now (initial_state (M.meaning model.now)) }
{
    keeps_laws(model);
}

/// An event leaves a lawful state.
pub fn law_next<M: Model>(model: &M, terms: &Terms)
    ensures { NextLawful (M.meaning model.now) terms.now }
{
    keeps_laws(model);
}

/// A run ends: after finitely many events, each the next one, nothing is next but its stop.
pub fn law_run_ends<M: Model>(model: &M, terms: &Terms)
    ensures { RunEnds (M.meaning model.now) terms.now }
{}

/// What a bucket does is what the run does next, and bucket by bucket the whole run happens, with its records,
/// its last state and its stop (Steinman 1992: events are committed in the order of their stamps).
pub fn law_bucket<M: Model>(model: &M, terms: &Terms)
    ensures next_of_run { BucketLaw (M.meaning model.now) terms.now }
    ensures whole_run { CyclesLaw (M.meaning model.now) terms.now }
{
    keeps_laws(model);
}

/// Where neither the end nor the limit is met, a bucket has an event or a fault, so cycles end.
pub fn law_moves<M: Model>(model: &M, terms: &Terms)
    ensures moves { MovesLaw (M.meaning model.now) terms.now }
    ensures ends { EndsLaw (M.meaning model.now) terms.now }
{
    keeps_laws(model);
}

/// A bucket is exactly the pending events before its end: its horizon (Steinman 1994), or its fault.
pub fn law_horizon<M: Model>(model: &M, terms: &Terms)
    ensures { HorizonLaw (M.meaning model.now) terms.now }
{}

/// An object's part of a bucket is its own replay, and however far an object runs ahead, it neither sends nor
/// fails before the end of the bucket.
pub fn law_objects<M: Model>(model: &M, terms: &Terms)
    ensures { ObjectsLaw (M.meaning model.now) terms.now }
{}
