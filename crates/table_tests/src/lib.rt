//! Tests of tables of replications: those of any models under many seeds, the words that ask for one, and whole runs of the program
//! `replicate`.
#![tactic(auto)]

#[cfg(test)]
mod tests;
