//! Shops: how many servers are busy beside those that are open.
ghost use Rattle.shop_draw_laws.specs.ShiftLaws.{BusyRisesWithin, BusyWithinServers};

/// Where an event of a shop makes a server busy, no more are busy then than are open: so more are busy only after a shift
/// closed some in use, which end what they had begun. At a station without shifts no more are ever busy than it has.
pub fn law_shifts()
    ensures rises { BusyRisesWithin }
    ensures within { BusyWithinServers }
{}
