//! Networks of queues: jobs keep their births, and are as old as is told.
ghost use Rattle.subject_laws.specs.BirthLaws.{EachJobKeepsItsBirth, AgesAreTold, NoneLeavesLate};

/// After any number of events of a network each job keeps its birth, wherever it stands: its time on the list, or the time at
/// which its source made it. So what `leave` tells is the time since the job's birth. And no sink tells of a job that is
/// older than its due.
pub fn law_births()
    ensures kept { EachJobKeepsItsBirth }
    ensures ages { AgesAreTold }
    ensures due { NoneLeavesLate }
{}
