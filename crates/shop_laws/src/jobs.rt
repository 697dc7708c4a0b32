//! Shops: each job is at one place, and keeps its birth.
ghost use Rattle.shop_laws.specs.JobLaws.{EachJobOnce};

/// No job is lost or doubled: after any number of events of a shop, the jobs at pending events and in lines, and those that
/// have left or were given up, are those that were made, each as often, and each with the tick of its make. The jobs of
/// each class are made in the order of their numbers, each once; and as many of them are inside as the class counts.
pub fn law_jobs()
    ensures { EachJobOnce }
{}
