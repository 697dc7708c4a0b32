//! The horizon word: one number that threads share, lowered by a fetch-min and read by a load, neither of which waits.
#![tactic(auto)]

mod law;
mod note;
mod rule;
mod word;

pub use law::law_word_rule;
pub use word::{HorizonWord, WordSeat};
