//! Shops: jobs are as old as is told, and late exactly above their due.
ghost use Rattle.shop_laws.specs.DueLaws.{AgesAreTold, LateIsTold};

/// If the next event of a run of a shop tells that a job leaves, or is given up, then the job was made so many ticks before
/// as it tells. If it leaves, `late` follows exactly where that is above the due of its class, with the difference.
pub fn law_due()
    ensures ages { AgesAreTold }
    ensures late { LateIsTold }
{}
