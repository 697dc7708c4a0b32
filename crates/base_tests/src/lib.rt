//! Tests of the crates below the engines and the programs, a file for each: keys, changes of cells, random words, effects, bags
//! and cells, horizons, lanes and exchanges, queues, and turns that are stolen; models, the readers of texts, states and words,
//! streams, and the lines of records and totals.
#![tactic(auto)]

#[cfg(test)]
mod tests;
