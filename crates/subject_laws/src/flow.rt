//! Networks of queues: what comes to an object is what was sent to it.
ghost use Rattle.subject_laws.specs.FlowLaws.{FlowLaw};

/// After any number of events of a network, at each object that is neither a source nor quiet: the arrivals that its totals
/// count, and the jobs that are on their way to it, are as many as the jobs of the list that begin there and those that
/// were sent to it.
pub fn law_flow_of_jobs()
    ensures { FlowLaw }
{}
