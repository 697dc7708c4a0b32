//! A model under any seed, as it was read.
use sim_spec::Terms;

/// A model that can be had under any seed, and how far its runs go.
#[derive(Drop)]
pub struct Family<S> {
    pub models: S,
    pub terms: Terms,
    /// Its own seed, below 2^63.
    pub seed: u64,
    /// How many bytes the rows of a replication have at most, for the size of the batches: no text depends on it.
    pub row_bytes: u64,
}
