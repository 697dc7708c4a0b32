//! Laws in the words of token rings, and of numbers. Each function does nothing: its contract is the law.
ghost use Rattle.own_laws.specs.Numbers.{Numbers};
ghost use Rattle.own_laws.specs.OneToken.{OneToken};

/// There is one token, and it goes round: after any number of events one event is pending, the token's, at the station
/// whose number is the number of events modulo the number of stations.
pub fn law_one_token()
    ensures { OneToken }
{}

/// What the names of kinds, words and faults stand for.
pub fn law_numbers()
    ensures { Numbers }
{}
