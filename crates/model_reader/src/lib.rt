//! What a reader of models is: which texts are which models, and why it refuses the others.
#![tactic(auto)]

mod laws;
mod reader;
mod refusal;

pub use laws::law_read_once;
pub use reader::ModelReader;
pub use refusal::Refusal;
