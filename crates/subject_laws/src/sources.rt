//! Networks of queues: a source makes its jobs when it drew that it would.
ghost use Rattle.subject_laws.specs.SourceLaws.{SourcesLaw};

/// After any number of events of a network the times at which a source made its jobs, and the one at which it will make its
/// next one if any is left, are its `first`, and then each as long after the one before it as the source drew.
pub fn law_sources()
    ensures { SourcesLaw }
{}
