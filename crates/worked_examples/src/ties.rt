//! A tie with the horizon, on a ring of PHOLD.
ghost use Rattle.std.specs.Prelude.{◌≡◌};
ghost use Rattle.sim_spec.specs.declared.stop.Stop.TheVariants.{End};
ghost use Rattle.worked_examples.specs.Summaries.{summary};
ghost use Rattle.worked_examples.specs.Ring.{ring, to_nine, ring_buckets};

/// A pending event at the stamp of the horizon waits for the next bucket, although its key is smaller than that of the
/// event which gave the horizon.
pub fn an_event_at_the_horizon_waits()
    ensures { summary ring to_nine ≡ (ring_buckets, End, 3) }
{}
