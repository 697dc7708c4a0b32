//! What the rule of the word says of each step.
ghost use Rattle.horizon_word.specs.Steps.{OpeningKeepsRule, SplitKeepsRule, LowerKeepsRule, ReadKeepsRule, OthersStay, AnswersItsWord, KeepsItsAnswer, FallsToOffer};

/// The law of a horizon word. Each kind of step leads from a state under its rule to a state under its rule: the
/// opening, the making of a seat, the fetch-min and the load. No step changes what another seat knows.
///
/// `answers`, `stays` and `falls` are about any step of one seat, also of a kind that is not among these four. A step
/// that counts for its seat answers the word that it left. One that does not count leaves the seat's answer, or makes
/// it the word. The word falls just to what the seat offers. So no code can have a step of its own that answers an
/// older word, or that takes the word below the offers.
pub fn law_word_rule()
    ensures opening { OpeningKeepsRule }
    ensures split { SplitKeepsRule }
    ensures lower { LowerKeepsRule }
    ensures read { ReadKeepsRule }
    ensures others { OthersStay }
    ensures answers { AnswersItsWord }
    ensures stays { KeepsItsAnswer }
    ensures falls { FallsToOffer }
{}
