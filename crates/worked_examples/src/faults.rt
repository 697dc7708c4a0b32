//! A fault, at a strict station whose line is full.
ghost use Rattle.std.specs.Prelude.{◌≡◌, [], ◌∷◌};
ghost use Rattle.event_key.specs.declared.key.TheConstants.{INITIAL};
ghost use Rattle.event_key.specs.Stamps.{stamp_at};
ghost use Rattle.sim_spec.specs.declared.stop.Stop.TheVariants.{Limit, Fault};
ghost use Rattle.sim_spec.specs.Horizon.{reach};
ghost use Rattle.sim_spec.specs.State.{initial_state};
ghost use Rattle.worked_examples.specs.Summaries.{summary, key_at};
ghost use Rattle.worked_examples.specs.StrictStation.{crowd, to_thirty, to_two_events, faulted_bucket, limited_bucket};

/// A bucket ends at an event that fails, and the simulation stops there.
pub fn a_fault_ends_a_bucket()
    ensures { summary crowd to_thirty ≡ (faulted_bucket ∷ [], Fault (key_at 7 0 0 INITIAL 2) 2, 2) }
{}

/// Nothing below the stamp after the fault's can be sent.
pub fn a_fault_is_as_far_as_a_bucket_reaches()
    ensures { reach crowd to_thirty (initial_state crowd) ≡ stamp_at 7 1 }
{}

/// Where the limit lets two events happen, it is met before the fault of the third.
pub fn the_limit_comes_before_a_fault()
    ensures { summary crowd to_two_events ≡ (limited_bucket ∷ [], Limit, 2) }
{}
