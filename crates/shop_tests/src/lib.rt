//! Tests of shops: what is read as one and what a text is refused for, whole runs, totals, saved states, words, and tables
//! of replications. What a run prints was written by an independent simulator, or worked out by hand.
#![tactic(auto)]

#[cfg(test)]
mod tests;
