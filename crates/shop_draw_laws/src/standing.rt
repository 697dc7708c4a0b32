//! Shops: for how long services take.
ghost use Rattle.shop_draw_laws.specs.StandingLaws.{LagIsTold, ServicesStandStill};

/// If the next event of a run of a shop tells `done`, then a service of that job began as many ticks before as were drawn for
/// it, and as the station has stood still since, all standstills that began in between counted whole: the lag, which counts
/// them, is the sum of those that `down` told.
pub fn law_standing()
    ensures services { ServicesStandStill }
    ensures lag { LagIsTold }
{}
