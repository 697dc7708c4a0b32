//! Networks of queues: what servers work is what was drawn.
ghost use Rattle.subject_laws.specs.TimeLaws.{UtilisationLaw};

/// After any number of events of a network, at each station that isn't quiet: the column `busy` of its totals is the sum
/// of the services that were drawn, less what is left of those under way when the last word was told. So where nobody is in
/// service it is the sum of the drawn services.
pub fn law_utilisation()
    ensures { UtilisationLaw }
{}
