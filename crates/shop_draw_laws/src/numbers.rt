//! Shops: what names of numbers stand for.
ghost use Rattle.shop_draw_laws.specs.Numbers.{Numbers};

/// What the names of limits, words and kinds of events of shops stand for.
pub fn law_numbers()
    ensures { Numbers }
{}
