//! Networks of queues: each object draws from its own stream.
ghost use Rattle.subject_laws.specs.DrawLaws.{EachDrawsItsOwn, DrawsStay};

/// Each object draws from its own stream: what it draws in a run are the first draws of its law from its own words, in
/// order. So in two networks with one seed an object that is the same in both draws the same values one after another,
/// whatever else the networks are.
pub fn law_draws()
    ensures own { EachDrawsItsOwn }
    ensures stay { DrawsStay }
{}
