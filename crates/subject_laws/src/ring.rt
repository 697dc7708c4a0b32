//! Networks of queues: a demo runs to its end.
ghost use Rattle.subject_laws.specs.RingLaws.{RingsRunToTheirEnd};

/// The run of every demo ends at its last tick, without a fault and before the limit: after fewer than 400,000 events, and
/// no job is lost.
pub fn law_ring()
    ensures { RingsRunToTheirEnd }
{}
