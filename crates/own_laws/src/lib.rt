//! What holds of every run of the model `own_model`.
#![tactic(auto)]

pub mod laws;
