//! Shops: for how long jobs wait.
ghost use Rattle.shop_laws.specs.TimeLaws.{LittleLaw};

/// After any number of events of a shop, at each station and by any clock from the last event on: the sum of waiting jobs
/// over the ticks, which `totals` prints, is what `call` and `renege` told that jobs had waited, and for how long those who
/// wait have waited so far.
pub fn law_little()
    ensures { LittleLaw }
{}
