//! Networks of queues: servers keep their count, and none idles while a job waits.
ghost use Rattle.subject_laws.specs.ServerLaws.{ServersLaw};

/// In every reached state of a network, at each station: at most its servers are busy; they are as many as its services
/// under way; a job waits only while all servers are busy; and no more jobs wait than its line holds.
pub fn law_servers()
    ensures { ServersLaw }
{}
