//! Networks of queues: being quiet or traced changes notes, and nothing else.
ghost use Rattle.subject_laws.specs.TellingLaws.{PlainRunsDifferInNotes, TellingChangesNotesAlone};

/// Being quiet or traced changes what is told, and nothing else: after any number of events the runs of two networks that
/// differ in this alone have had the same events, are in the same state, and stop for the same reason. So does the run as
/// it would be if no object were quiet or traced.
pub fn law_telling()
    ensures plain { PlainRunsDifferInNotes }
    ensures alike { TellingChangesNotesAlone }
{}
