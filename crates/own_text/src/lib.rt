//! The reader of token rings: a TOML document becomes a ring with its terms, or is refused at the first check that fails.
#![tactic(auto)]

mod reader;
mod tally;

pub use reader::RingTexts;
pub use tally::RingTally;
