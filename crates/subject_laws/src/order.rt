//! Networks of queues: first come, first served.
ghost use Rattle.subject_laws.specs.OrderLaws.{FirstComeFirstServed};

/// First come, first served: at a station jobs begin their service in the order in which they came in, after any number of
/// events; with one server they are done in that order. Who came in and who was done is what the events tell, or would tell
/// if no object were quiet.
pub fn law_first_come_first_served()
    ensures { FirstComeFirstServed }
{}
