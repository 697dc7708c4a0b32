//! Networks of queues: the totals of a station account for its jobs and for the time of its servers.
ghost use Rattle.subject_laws.specs.TotalLaws.{EachStationIsAccountedFor};

/// After any number of events of a network, the totals of each station over what was told of it account for its jobs:
/// those that came to it were served or turned away, wait, or are in service. And its servers were busy no longer than
/// all of them could be until something was last told of it. A quiet station is left out: nothing is told of it, so its
/// totals are 0.
pub fn law_totals()
    ensures { EachStationIsAccountedFor }
{}
