//! A station that runs ahead into a fault which the simulation never meets.
ghost use Rattle.std.specs.Prelude.{◌≡◌, [], ◌∷◌, Some};
ghost use Rattle.event_key.specs.declared.key.TheConstants.{INITIAL};
ghost use Rattle.event_key.specs.Stamps.{stamp_at};
ghost use Rattle.sim_spec.specs.declared.stop.Stop.TheVariants.{End};
ghost use Rattle.sim_spec.specs.Cut.{cut};
ghost use Rattle.sim_spec.specs.Replay.{early_replay};
ghost use Rattle.sim_spec.specs.State.{initial_state};
ghost use Rattle.world_spec.specs.Share.{log_of};
ghost use Rattle.worked_examples.specs.Summaries.{summary, shown_of, key_at};
ghost use Rattle.worked_examples.specs.StrictStation.{pairs, to_thirty, first_of_pairs, buckets_of_pairs, early_of_pairs};
ghost use Rattle.worked_examples.specs.Worlds.{start, both, bound_of, ahead_left, ahead_kept, told_by, three_jobs};

/// Early the station finds its line full when the third job comes. The bucket ends before that, where the service of
/// the first one does, and so the simulation comes to its end.
pub fn a_fault_that_is_met_early_is_no_fault()
    ensures early { shown_of (early_replay pairs (initial_state pairs) 0 3) ≡ early_of_pairs }
    ensures first { cut pairs to_thirty (initial_state pairs) ≡ first_of_pairs }
    ensures whole { summary pairs to_thirty ≡ (buckets_of_pairs, End, 9) }
{}

/// A node that holds the station meets that fault with all three arrivals processed, past the bound at which its cycle
/// closes.
pub fn a_node_meets_a_false_fault()
    ensures fault { (log_of pairs start 0 3).fault ≡ Some (key_at 11 0 0 INITIAL 2, 2) }
    ensures bound { bound_of start (both 3 0) ≡ stamp_at 9 0 }
{}

/// One event is committed and two are left ahead. What the first one sends is a straggler, and undoes both.
pub fn a_straggler_undoes_what_is_ahead()
    ensures left { ahead_left ≡ 2 }
    ensures undone { ahead_kept ≡ 0 }
{}

/// The same is told with nobody ahead of the bound and with the station as far ahead as it can be.
pub fn running_ahead_tells_the_same()
    ensures behind { told_by start ((1, 0) ∷ (1, 0) ∷ (2, 1) ∷ (1, 0) ∷ (1, 1) ∷ (0, 1) ∷ []) ≡ three_jobs }
    ensures ahead { told_by start ((3, 0) ∷ (3, 0) ∷ (2, 1) ∷ (1, 0) ∷ (1, 1) ∷ (0, 1) ∷ []) ≡ three_jobs }
{}
