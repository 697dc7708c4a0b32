//! What holds of every run, whatever the model: laws above the definitions, each the contract of a function that does
//! nothing.
#![tactic(auto)]

pub mod laws;
