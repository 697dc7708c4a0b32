//! When a fork pays.
ghost use Rattle.std.specs.Prelude.{◌≡◌, ◌<◌, ◌≤◌, ◌↔◌, IsTrue, true, false};
ghost use Rattle.node_team.specs.declared.paying.TheConstants.{MANY_EVENTS, MOST_THREADS};

/// In how many threads a phase of a cycle runs at most. Beyond that a thread does several nodes one after another: a fork in
/// four costs 65 microseconds on an idle machine, in eight 190, in sixteen 500 and more, while few programs have more than
/// four processors to themselves.
const MOST_THREADS: usize = 4;

/// From so many events on, which all nodes together processed in the last cycle, the advance forks, and from so many that
/// they committed, the commit, and then the receipts. A new thread pulls the data of its nodes to another processor, where the
/// commit then finds them as little as the advance does. So it is these two forks together that are paid back: by 560 events
/// where these are cold in memory, and by 1,340 where they are warm. It takes more with two nodes, and on a busy machine.
const MANY_EVENTS: u64 = 1_536;

/// What the nodes of a team did together in their last cycle. It stands for what they will do in the next one.
#[derive(Clone, Copy)]
pub struct Load {
    /// How many events were processed, modulo 2^64.
    pub processed: u64,
    /// How many were committed.
    pub committed: u64,
}

impl Load {
    /// Nothing is known before the first cycle, which so forks: the nodes may have any number of events.
    pub fn unknown() -> Load
        ensures advance { MANY_EVENTS ≤ result.processed }
        ensures commit { MANY_EVENTS ≤ result.committed }
    {
        Load {
            processed: u64::MAX,
            committed: u64::MAX,
        }
    }

    /// Whether no fork pays: neither for the advance nor for the commit.
    pub fn forks_nothing(&self) -> bool
        ensures { IsTrue result ↔ (self.now.processed < MANY_EVENTS) × (self.now.committed < MANY_EVENTS) }
    {
        self.processed < MANY_EVENTS && self.committed < MANY_EVENTS
    }

    /// In how many threads the nodes advance.
    pub fn advance_threads(&self) -> usize
        ensures some { 0 < result }
        ensures forks { MANY_EVENTS ≤ self.now.processed → result ≡ MOST_THREADS }
        ensures alone { self.now.processed < MANY_EVENTS → result ≡ 1 }
    {
        threads(self.processed >= MANY_EVENTS)
    }

    /// In how many threads they commit, and receive.
    pub fn commit_threads(&self) -> usize
        ensures some { 0 < result }
        ensures forks { MANY_EVENTS ≤ self.now.committed → result ≡ MOST_THREADS }
        ensures alone { self.now.committed < MANY_EVENTS → result ≡ 1 }
    {
        threads(self.committed >= MANY_EVENTS)
    }
}

/// How many of so many nodes one of so many threads serves at most, at least one.
pub fn share(nodes: usize, threads: usize) -> usize
    requires { 0 < threads }
    ensures { 0 < result }
{
    nodes.div_ceil(threads).max(1)
}

/// The calling thread alone, unless a fork pays.
fn threads(pays: bool) -> usize
    ensures some { 0 < result }
    ensures forks { pays ≡ true → result ≡ MOST_THREADS }
    ensures alone { pays ≡ false → result ≡ 1 }
{
    if pays { MOST_THREADS } else { 1 }
}
