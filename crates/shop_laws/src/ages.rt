//! Shops: for how long jobs are inside.
ghost use Rattle.shop_laws.specs.AgeLaws.{AgesAddUp};

/// After any number of events of a shop, for each class and by any clock from the last event on: the sum of jobs inside
/// over the ticks, which `totals` prints, is the ages that `leave` and `drop` told, and how old the jobs are that stand in
/// the shop.
pub fn law_ages()
    ensures { AgesAddUp }
{}
