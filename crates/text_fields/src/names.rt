//! Names of objects.
ghost use Rattle.std.specs.Prelude.{◌≡◌, IfOk, IsTrue, None, length};
ghost use Rattle.std.specs.List.{list_all};
ghost use Rattle.toml.specs.View.{view, items_view, table_view};
ghost use Rattle.queue_models.specs.Parts.{is_name_byte};
ghost use Rattle.text_fields.specs.Checks.{Gives};
ghost use Rattle.text_fields.specs.Directories.{finder};
ghost use Rattle.text_fields.specs.Fields.{each, text};
ghost use Rattle.text_fields.specs.Names.{is_name, new_name, required_name, taken_in};

use crate::directory::{Directory, Place};
use crate::fields::{required, text};
use crate::refusal::{Cause, Refusal};
use model_core::Name;
use std::alloc::Global;
use toml::{Table, Value};

/// How many bytes a name has at most.
const MOST_NAME_BYTES: usize = 16;

/// Whether a name may have this byte.
fn is_name_byte(byte: u8) -> bool
    ensures { result ≡ is_name_byte byte }
{
    matches!(byte, b'A'..=b'Z' | b'a'..=b'z' | b'0'..=b'9' | b'_' | b'-')
}

/// Whether a name may have each byte of the text.
fn has_name_bytes(name: &str) -> bool
    ensures { result ≡ list_all is_name_byte name.now }
{
    name.as_bytes().iter().all(|byte| is_name_byte(*byte))
}

/// Whether the text is a name.
fn is_name(name: &str) -> bool
    ensures { result ≡ is_name name.now }
{
    !name.is_empty() && name.len() <= MOST_NAME_BYTES && has_name_bytes(name)
}

/// The texts of an array, each as the name of an object.
pub fn names_of(alloc: Global, values: &[Value], item: u32) -> Result<Vec<Name>, Refusal>
    ensures read { Gives (λ names. names.items) result (each (text item) (items_view values.now)) }
    ensures count { IfOk result (λ names. length names.items ≡ length values.now) }
{
    let mut names = Vec::new(alloc);
    for value in values {
        let name = text(value, item)?;
        names.push(Name::of(alloc, name.as_bytes())?)?;
    }
    Ok(names)
}

/// A name that nothing in the directory has, which takes in what has it.
#[tactic(auto, unfolding(crate::specs::Names::new_name))]
pub fn new_name<'a>(
    value: &'a Value,
    directory: &mut Directory<'a>,
    place: Place,
    item: u32,
) -> Result<&'a str, Refusal>
    ensures read { Gives (λ name. name.now) result (new_name (finder directory.old) item (view value.now)) }
    ensures named { IfOk result (λ name. IsTrue (is_name name.now)) }
    ensures new { IfOk result (λ name. finder directory.old name.now ≡ None) }
    ensures taken_in { IfOk result (λ name. finder directory.new ≡ taken_in (finder directory.old) name.now place) }
{
    let name = text(value, item)?;
    if !is_name(name) {
        return Err(Cause::BadValue.at(item));
    }
    match directory.add(name.as_bytes(), place)? {
        Some(_) => Err(Cause::BadValue.at(item)),
        None => Ok(name),
    }
}

/// The name that a table gives, which nothing in the directory has. It takes in what has it.
pub fn required_name<'a>(
    table: &'a Table,
    directory: &mut Directory<'a>,
    place: Place,
    item: u32,
) -> Result<&'a str, Refusal>
    ensures read { Gives (λ name. name.now) result (required_name (finder directory.old) item (table_view table.now)) }
    ensures named { IfOk result (λ name. IsTrue (is_name name.now)) }
    ensures new { IfOk result (λ name. finder directory.old name.now ≡ None) }
    ensures taken_in { IfOk result (λ name. finder directory.new ≡ taken_in (finder directory.old) name.now place) }
{
    new_name(required(table, "name", item)?, directory, place, item)
}
