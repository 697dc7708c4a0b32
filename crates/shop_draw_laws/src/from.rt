//! Shops: totals from a tick on.
ghost use Rattle.shop_draw_laws.specs.FromLaws.{TotalsFrom};

/// What is counted of an object of a shop from a tick on, and what was told before that tick, are all that is told; and so the
/// sums over the ticks before it and from it on are the sums over all ticks.
pub fn law_from()
    ensures { TotalsFrom }
{}
