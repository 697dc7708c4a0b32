//! Shops: no server idles while a job waits.
ghost use Rattle.shop_laws.specs.IdleLaws.{NoneIdle};

/// After any number of events of a shop: where a job waits at a station and a server is spare, a call is pending there, at the
/// tick of the last event. So no tick ends with a job in line beside a server that is open, neither busy nor held, at a
/// station that works.
pub fn law_none_idle()
    ensures { NoneIdle }
{}
