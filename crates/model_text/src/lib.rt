//! The reader of model texts: a TOML document becomes a model with its terms, or is refused at the first check that
//! fails.
#![tactic(auto)]

mod additions;
mod circuits;
mod described;
mod format_laws;
mod formats;
mod gate_fields;
mod gates;
mod jobs;
mod kinds;
mod links;
mod model;
mod named;
mod network;
mod objects;
mod phold;
mod reader;
mod seeded;
mod starts;
mod top;
mod totals;

pub use described::ReadModel;
pub use format_laws::law_formats;
pub use model::AnyModel;
pub use reader::ModelTexts;
pub use seeded::Seeded;
pub use text_fields::{Refusal, code_name};
pub use top::{read_family, read_model};
pub use totals::ModelTotals;
