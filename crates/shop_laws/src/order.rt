//! Shops: who is called first.
ghost use Rattle.shop_laws.specs.OrderLaws.{CallsInOrder, TakesInOrder, JoinedInOrder};

/// A job that is called in a run of a shop stands at the most urgent level that has an entry, as its first, or with the
/// order `last` as its last; a job is taken only where nobody waits; and in every reached state the entries of a level stand
/// in the order in which they joined.
pub fn law_order()
    ensures calls { CallsInOrder }
    ensures takes { TakesInOrder }
    ensures joined { JoinedInOrder }
{}
