//! The TOML document of a text.
ghost use Rattle.toml.specs.View.{table_view};
ghost use Rattle.text_fields.specs.Checks.{Gives};
ghost use Rattle.text_fields.specs.Documents.{document, tree};

use crate::refusal::{Cause, Refusal};
use model_core::MOST_TEXT_BYTES;
use std::alloc::Global;
use toml::Table;

/// The TOML document of a text.
pub fn tree(alloc: Global, bytes: &[u8]) -> Result<Table, Refusal>
    ensures { Gives (λ table. table_view table) result (tree bytes.now) }
{
    let text = match std::str::from_utf8(bytes) {
        Ok(text) => text,
        Err(_) => return Err(Cause::NotToml.at(0)),
    };
    match toml::table_from_str(alloc, text) {
        Ok(table) => Ok(table),
        Err(error) => {
            if error.is_memory() {
                Err(Refusal::OutOfMemory)
            } else {
                Err(Cause::NotToml.at(0))
            }
        }
    }
}

/// The same of a text that has at most `MOST_TEXT_BYTES` bytes. A longer one is refused.
pub fn document(alloc: Global, bytes: &[u8]) -> Result<Table, Refusal>
    ensures { Gives (λ table. table_view table) result (document bytes.now) }
{
    if bytes.len() > MOST_TEXT_BYTES {
        return Err(Cause::TooLong.at(0));
    }
    tree(alloc, bytes)
}
