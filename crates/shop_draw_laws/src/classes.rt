//! Shops: what comes to a station, class by class.
ghost use Rattle.shop_draw_laws.specs.ClassLaws.{ClassFlow};

/// After any number of events of a shop, at each station and for each class: the jobs of the class that came are those that
/// began, were lost, reneged and wait.
pub fn law_classes()
    ensures { ClassFlow }
{}
