//! The reader of texts of shops: a TOML document becomes a shop with its terms, or is refused at the first check that fails.
#![tactic(auto)]

mod arrivals;
mod body;
mod classes;
mod laws;
mod links;
mod named;
mod reader;
mod routes;
mod shifts;
mod stations;
mod steps;
mod top;

pub use reader::ShopTexts;
pub use text_fields::{Refusal, code_name};
pub use top::read_shop;
