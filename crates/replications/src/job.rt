//! A replication as a job of a worker.
use sim_spec::Stop;

/// A replication, and what came of it.
#[derive(Drop)]
pub struct Job {
    /// Below 2^63.
    pub seed: u64,
    /// Its rows, once it is done.
    pub rows: Vec<u8>,
    /// Why its run stopped. None before it is done, and where memory ran out.
    pub stop: Option<Stop>,
}
