//! Tests of whole programs: what they read, write and note, over sources and sinks in memory.
#![tactic(auto)]

#[cfg(test)]
mod tests;
