//! Networks of queues: no job is lost or doubled.
ghost use Rattle.subject_laws.specs.JobLaws.{NoneLostOrDoubled};

/// No job is lost or doubled: after any number of events of a network, each job that was put in or made has one place, and
/// those that are in the system hold its places, one each. Jobs are followed by what the events tell, or would tell if no
/// object were quiet.
pub fn law_jobs()
    ensures { NoneLostOrDoubled }
{}
