//! Shops: breaks and repairs in turn.
ghost use Rattle.shop_laws.specs.TurnLaws.{BreaksInTurn};

/// In every reached state of a shop a station that breaks down has one pending event of these two kinds, its next break or its
/// repair, and another station none.
pub fn law_turns()
    ensures { BreaksInTurn }
{}
