//! Models that the tests of several crates run.
#![tactic(auto)]

mod stingy;

pub use stingy::Stingy;
