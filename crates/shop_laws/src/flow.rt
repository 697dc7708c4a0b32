//! Shops: what comes to a station begins, is lost, reneges or waits, and what begins is done or busy.
ghost use Rattle.shop_laws.specs.FlowLaws.{FlowLaw};

/// After any number of events of a shop, at each station: the jobs that came are those that began, were lost, reneged and
/// wait; those that began are those that were done and those that are busy; the busy servers, the waiting jobs, the open
/// servers and the standstill, as what is told leaves them, are those of the state; and the lag is the sum of the
/// standstills that were told, modulo 2^64.
pub fn law_flow()
    ensures { FlowLaw }
{}
