//! A model to copy: a token goes round a ring of stations, and only the station that has it may send.
#![tactic(auto)]

mod ring;

pub use ring::Ring;

#[cfg(test)]
mod tests;
