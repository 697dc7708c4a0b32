//! What is to be found out of a model.
use sim_spec::Terms;

/// A model under seeds that follow one another, and what is to be told of its runs.
#[derive(Drop)]
pub struct Study<S> {
    /// The model under any seed.
    pub models: S,
    /// The head line of the table.
    pub head: &'static str,
    /// How many bytes the rows of a replication have at most, for the size of the batches: no text depends on it.
    pub row_bytes: u64,
    /// At which tick and after how many events each run ends at the latest.
    pub terms: Terms,
    /// The first tick of the window.
    pub first_tick: u64,
    /// The seed of the first replication, below 2^63. The others follow it one by one, and 0 follows the last one, 2^63 - 1.
    pub first_seed: u64,
}
