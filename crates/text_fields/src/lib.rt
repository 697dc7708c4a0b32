//! What readers of model texts share: the checks of the fields of a TOML document, and of names, links, weights and laws,
//! with the codes of their refusals.
#![tactic(auto)]

mod directory;
mod documents;
mod fields;
mod laws;
mod linking;
mod names;
mod numbers;
mod refusal;
mod terms;
mod weights;

pub use directory::{Directory, Place};
pub use documents::{document, tree};
pub use fields::{
    array_of, entries_of, field, item_count, number, number_or, only, optional, optional_array,
    optional_number, required, required_number, required_text, table_of, text, text_or, truth,
    truth_or,
};
pub use laws::{fixed_law, law, required_law, uniform_law};
pub use linking::{link, links};
pub use names::{names_of, new_name, required_name};
pub use numbers::numbers_of;
pub use refusal::{Cause, Refusal, code_name};
pub use terms::terms_of;
pub use weights::{optional_shares, optional_weights, ways};
