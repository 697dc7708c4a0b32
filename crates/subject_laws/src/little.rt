//! Networks of queues: what jobs wait is what the totals of a station say (Little 1961).
ghost use Rattle.subject_laws.specs.TimeLaws.{LittleLaw};

/// After any number of events of a network, at each station that isn't quiet: the column `waiting` of its totals is what its
/// jobs have waited, one by one and to the tick: each from when it came in until its service began, or until the last word
/// was told. So it is the sum of the times at which services began, less the sum of the times at which jobs came, with the
/// time of the last word for each job that waits still.
pub fn law_little()
    ensures { LittleLaw }
{}
