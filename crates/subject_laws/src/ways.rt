//! Networks of queues: a job goes where its object sends it, when it should.
ghost use Rattle.subject_laws.specs.WayLaws.{WaysLaw, OthersStayLaw};

/// A job goes on from an object to the one that its `next` names, or from a router to the one that it drew among these. It
/// comes there at the next step of the same tick, or from a delay after the ticks that the delay drew. Whatever else an object
/// sends, it sends to itself.
pub fn law_ways()
    ensures jobs { WaysLaw }
    ensures others { OthersStayLaw }
{}
