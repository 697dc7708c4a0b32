//! Shops: who waits, and loses patience.
ghost use Rattle.shop_draw_laws.specs.PatienceLaws.{NobodyOutwaits, PatienceIsDrawn};

/// If the next event of a run of a shop tells `renege`, then a job of that id stands in line until then, and has waited for
/// so many ticks as are told: that is the patience which was drawn as it joined. And as any event happens, whoever stands in
/// line with a patience has waited for no longer than it; and as a server calls, for fewer ticks, if it is above 0.
pub fn law_patience()
    ensures reneges { PatienceIsDrawn }
    ensures waits { NobodyOutwaits }
{}
