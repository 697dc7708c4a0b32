//! How the nodes of an advance are handed out to threads.
ghost use Rattle.std.specs.Prelude.{◌≡◌, ◌<◌, ◌≤◌, ℕ};
ghost use Rattle.node_team.specs.Handings.{AreWorkers, IsHanding};

/// How the nodes of an advance are handed out to threads.
#[derive(Clone, Copy)]
pub enum Handing {
    /// None is: the calling thread advances node after node.
    InTurn,
    /// So many threads at most have a part of the nodes each.
    InParts(usize),
    /// So many workers, 1 to 64, take the nodes' turns and steal them from each other.
    Stolen(u32),
}

impl Handing {
    /// In so many threads, where more than one pays, or by workers in their place.
    pub fn of(threads: usize, workers: Option<u32>) -> Handing
        requires { AreWorkers workers }
        ensures can { IsHanding result }
        ensures alone { threads < 2 → result ≡ Handing.InTurn }
        ensures parts { 2 ≤ threads → workers ≡ None → result ≡ Handing.InParts threads }
        ensures stolen { (many : ℕ) → 2 ≤ threads → workers ≡ Some many → result ≡ Handing.Stolen many }
    {
        if threads < 2 {
            return Handing::InTurn;
        }
        match workers {
            Some(workers) => Handing::Stolen(workers),
            None => Handing::InParts(threads),
        }
    }
}
