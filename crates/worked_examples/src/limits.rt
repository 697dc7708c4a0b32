//! The end and the limit, in a shop.
ghost use Rattle.std.specs.Prelude.{◌≡◌};
ghost use Rattle.sim_spec.specs.declared.stop.Stop.TheVariants.{End, Limit};
ghost use Rattle.worked_examples.specs.Summaries.{summary};
ghost use Rattle.worked_examples.specs.Shop.{shop, to_twenty, to_twelve_events, to_eleven_events, to_ten_events, all_buckets, first_six_buckets, cut_buckets};

/// Three jobs go through the shop in seven buckets.
pub fn three_jobs_take_seven_buckets()
    ensures { summary shop to_twenty ≡ (all_buckets, End, 12) }
{}

/// Where the last event that may happen is the last one before the end, the simulation stops by the end.
pub fn the_end_comes_before_the_limit()
    ensures { summary shop to_twelve_events ≡ (all_buckets, End, 12) }
{}

/// A bucket at whose end the limit is met stays whole.
pub fn a_bucket_up_to_the_limit_is_whole()
    ensures { summary shop to_eleven_events ≡ (first_six_buckets, Limit, 11) }
{}

/// A bucket in which the limit is met is cut there, and has no horizon.
pub fn the_limit_cuts_a_bucket()
    ensures { summary shop to_ten_events ≡ (cut_buckets, Limit, 10) }
{}
