//! All that a program does that writes tables of many replications, over any reader of models that can be had under any seed.
#![tactic(auto)]

mod family;
mod reader;
mod running;

pub use family::Family;
pub use reader::FamilyReader;
pub use running::run_words;
