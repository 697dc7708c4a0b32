//! Shops: each object draws from its own stream.
ghost use Rattle.shop_draw_laws.specs.DrawLaws.{PlacesFollow, ValuesAreDrawn};

/// Each object of a shop draws from its own stream, one law after another: after any number of events its random place is
/// behind the words that its laws have read. And the ticks, jobs and steps that come of an event are the values of these laws
/// from that place on.
pub fn law_draws()
    ensures places { PlacesFollow }
    ensures values { ValuesAreDrawn }
{}
