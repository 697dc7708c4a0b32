//! The checks of one field of a table.
ghost use Rattle.std.specs.Prelude.{◌≡◌, ◌≤◌, pos, map, length, option_map, string_bytes, IfOk};
ghost use Rattle.std.specs.List.{list_any, list_all};
ghost use Rattle.std.specs.Option.{ForSome};
ghost use Rattle.std.specs.Str.{bytes_eq};
ghost use Rattle.std.specs.BTreeMap.{keys};
ghost use Rattle.toml.specs.Data.{array, boolean, get_member, integer, no_items};
ghost use Rattle.toml.specs.View.{view, table_view, items_view};
ghost use Rattle.text_fields.specs.Checks.{Gives};
ghost use Rattle.text_fields.specs.Fields.{number, text, truth, table_of, item_count, entries_of, array_of, required, required_number, required_text, optional, optional_number, number_or, text_or, has_only, only};

use crate::refusal::{Cause, Refusal};
use toml::{Table, Value};

/// A number from its least to its greatest value.
pub fn number(value: &Value, item: u32, least: u64, most: u64) -> Result<u64, Refusal>
    ensures read { Gives (λ n. n) result (number item least most (view value.now)) }
    ensures least { IfOk result (λ n. least ≤ n) }
    ensures most { IfOk result (λ n. n ≤ most) }
{
    let Some(integer) = value.as_integer() else {
        return Err(Cause::BadValue.at(item));
    };
    if integer < 0 {
        return Err(Cause::BadValue.at(item));
    }
    let n = integer as u64;
    if n < least {
        return Err(Cause::BadValue.at(item));
    }
    if most < n {
        return Err(Cause::Limit.at(item));
    }
    Ok(n)
}

/// A text.
pub fn text(value: &Value, item: u32) -> Result<&str, Refusal>
    ensures { Gives (λ s. s.now) result (text item (view value.now)) }
{
    match value.as_str() {
        Some(text) => Ok(text),
        None => Err(Cause::BadValue.at(item)),
    }
}

/// A truth value.
pub fn truth(value: &Value, item: u32) -> Result<bool, Refusal>
    ensures { Gives (λ answer. answer) result (truth item (view value.now)) }
{
    match value.as_bool() {
        Some(answer) => Ok(answer),
        None => Err(Cause::BadValue.at(item)),
    }
}

/// A table.
pub fn table_of(value: &Value, item: u32) -> Result<&Table, Refusal>
    ensures { Gives (λ table. table_view table.now) result (table_of item (view value.now)) }
{
    match value.as_table() {
        Some(table) => Ok(table),
        None => Err(Cause::BadValue.at(item)),
    }
}

/// How many entries an array has.
pub fn item_count(values: &[Value]) -> usize
    ensures count { result ≡ item_count (items_view values.now) }
    ensures length { result ≡ length values.now }
{
    values.len()
}

/// An array of any length.
pub fn entries_of(value: &Value, item: u32) -> Result<&[Value], Refusal>
    ensures { Gives (λ values. items_view values.now) result (entries_of item (view value.now)) }
{
    match value.as_array() {
        Some(array) => Ok(array.as_slice()),
        None => Err(Cause::BadValue.at(item)),
    }
}

/// An array of at most so many entries.
pub fn array_of(value: &Value, item: u32, most: usize) -> Result<&[Value], Refusal>
    ensures read { Gives (λ values. items_view values.now) result (array_of item most (view value.now)) }
    ensures most { IfOk result (λ values. length values.now ≤ most) }
{
    let Some(array) = value.as_array() else {
        return Err(Cause::BadValue.at(item));
    };
    let values = array.as_slice();
    if item_count(values) > most {
        return Err(Cause::Limit.at(item));
    }
    Ok(values)
}

/// What the table has at a key.
pub fn field<'a>(table: &'a Table, key: &str) -> Option<&'a Value>
    ensures { option_map (λ value. view value.now) result ≡ get_member key.now (table_view table.now) }
{
    table.get(key)
}

/// What the table has at a key that has to be there.
pub fn required<'a>(table: &'a Table, key: &str, item: u32) -> Result<&'a Value, Refusal>
    ensures { Gives (λ value. view value.now) result (required item key.now (table_view table.now)) }
{
    match field(table, key) {
        Some(value) => Ok(value),
        None => Err(Cause::Missing.at(item)),
    }
}

/// A number from its least to its greatest value, at a key that has to be there.
pub fn required_number(
    table: &Table,
    key: &str,
    item: u32,
    least: u64,
    most: u64,
) -> Result<u64, Refusal>
    ensures read { Gives (λ n. n) result (required_number item least most key.now (table_view table.now)) }
    ensures least { IfOk result (λ n. least ≤ n) }
    ensures most { IfOk result (λ n. n ≤ most) }
{
    number(required(table, key, item)?, item, least, most)
}

/// A text at a key that has to be there.
pub fn required_text<'a>(table: &'a Table, key: &str, item: u32) -> Result<&'a str, Refusal>
    ensures { Gives (λ s. s.now) result (required_text item key.now (table_view table.now)) }
{
    text(required(table, key, item)?, item)
}

/// What the table has at a key, or what stands for it where the key is absent.
pub fn optional<'a>(table: &'a Table, key: &str, default: &'a Value) -> &'a Value
    ensures { view result.now ≡ optional (view default.now) key.now (table_view table.now) }
{
    match field(table, key) {
        Some(value) => value,
        None => default,
    }
}

/// A number from its least to its greatest value, or none where the key is absent.
pub fn optional_number(
    table: &Table,
    key: &str,
    item: u32,
    least: u64,
    most: u64,
) -> Result<Option<u64>, Refusal>
    ensures read { Gives (λ n. n) result (optional_number item least most (get_member key.now (table_view table.now))) }
    ensures least { IfOk result (λ n. ForSome n (λ value. least ≤ value)) }
    ensures most { IfOk result (λ n. ForSome n (λ value. value ≤ most)) }
{
    match field(table, key) {
        Some(value) => Ok(Some(number(value, item, least, most)?)),
        None => Ok(None),
    }
}

/// A number from its least to its greatest value, or what stands for it where the key is absent.
pub fn number_or(
    table: &Table,
    key: &str,
    item: u32,
    default: u64,
    least: u64,
    most: u64,
) -> Result<u64, Refusal>
    requires least { least ≤ default }
    requires most { default ≤ most }
    ensures read { Gives (λ n. n) result (number_or item default least most (get_member key.now (table_view table.now))) }
    ensures checked { Gives (λ n. n) result (number item least most (optional (integer (pos default)) key.now (table_view table.now))) }
    ensures least { IfOk result (λ n. least ≤ n) }
    ensures most { IfOk result (λ n. n ≤ most) }
{
    match field(table, key) {
        Some(value) => number(value, item, least, most),
        None => Ok(default),
    }
}

/// A truth value, or what stands for it where the key is absent.
pub fn truth_or(table: &Table, key: &str, item: u32, default: bool) -> Result<bool, Refusal>
    ensures { Gives (λ answer. answer) result (truth item (optional (boolean default) key.now (table_view table.now))) }
{
    match field(table, key) {
        Some(value) => truth(value, item),
        None => Ok(default),
    }
}

/// An array of at most so many entries, or one of none where the key is absent.
pub fn optional_array<'a>(
    table: &'a Table,
    key: &str,
    item: u32,
    most: usize,
) -> Result<&'a [Value], Refusal>
    ensures read { Gives (λ values. items_view values.now) result (array_of item most (optional (array no_items) key.now (table_view table.now))) }
    ensures most { IfOk result (λ values. length values.now ≤ most) }
{
    match field(table, key) {
        Some(value) => array_of(value, item, most),
        None => Ok(&[]),
    }
}

/// A text, or what stands for it where the key is absent.
pub fn text_or<'a>(
    table: &'a Table,
    key: &str,
    item: u32,
    default: &'a str,
) -> Result<&'a str, Refusal>
    ensures { Gives (λ s. s.now) result (text_or item default.now (get_member key.now (table_view table.now))) }
{
    match field(table, key) {
        Some(value) => text(value, item),
        None => Ok(default),
    }
}

/// Whether a key is a known one.
fn is_known(known: &[&str], key: &str) -> bool
    ensures { result ≡ list_any (λ name. bytes_eq name.now key.now) known.now }
{
    known.iter().any(|name| *name == key)
}

/// Whether each key of the table is a known one.
fn has_known_keys(table: &Table, known: &[&str]) -> bool
    ensures { result ≡ list_all (λ key. list_any (λ name. bytes_eq name.now (string_bytes key)) known.now) (keys table.now) }
{
    table.keys().all(|key| is_known(known, key.as_str()))
}

/// The same, in the words of the definitions, which see a table as a list of members.
fn has_only(table: &Table, known: &[&str]) -> bool
    ensures { result ≡ has_only (map (λ name. name.now) known.now) (table_view table.now) }
{
    has_known_keys(table, known)
}

/// No key but the known ones.
pub fn only(table: &Table, known: &[&str], item: u32) -> Result<(), Refusal>
    ensures { Gives (λ _. tt) result (only item (map (λ name. name.now) known.now) (table_view table.now)) }
{
    if has_only(table, known) {
        Ok(())
    } else {
        Err(Cause::Unknown.at(item))
    }
}
