//! Shops: for how long servers are busy.
ghost use Rattle.shop_laws.specs.TimeLaws.{UtilisationLaw};

/// After any number of events of a shop, at each station and by any clock from the last event on: the sum of busy servers
/// over the ticks, which `totals` prints, and the ticks at which jobs began are the ticks at which jobs were done, and the
/// clock for each server that is busy. It is at most all servers times the clock.
pub fn law_utilisation()
    ensures { UtilisationLaw }
{}
