//! Networks of queues: when a job is lost, and when a station or a sink fails.
ghost use Rattle.subject_laws.specs.LossLaws.{LossesLaw, LateJobsLaw};

/// In every reached state of a network: a job is lost at a station exactly if it comes while all servers are busy and the
/// line is full, and the station isn't strict. A strict station fails exactly then, and a sink with a due exactly if a job
/// comes that is older.
pub fn law_losses()
    ensures losses { LossesLaw }
    ensures late { LateJobsLaw }
{}
