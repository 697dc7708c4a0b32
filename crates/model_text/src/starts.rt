//! The entries of `start`.
ghost use Rattle.std.specs.Prelude.{◌≡◌, ◌≤◌, length, All, IfOk};
ghost use Rattle.model_core.specs.declared.limits.TheConstants.{MOST_ENTRIES};
ghost use Rattle.phold_model.specs.Parts.{IsEntry};
ghost use Rattle.toml.specs.View.{view, items_view};
ghost use Rattle.text_fields.specs.Checks.{Gives};
ghost use Rattle.model_text.specs.Starts.{start_entry, start_entries};

use crate::additions::{entry_keys, rank};
use crate::formats::Format;
use event_key::LAST_TICK;
use model_core::{Entry, MOST_OBJECTS};
use std::alloc::Global;
use text_fields::{Cause, Refusal, only, required_number, table_of};
use toml::Value;

/// An entry, in a model of so many objects.
#[tactic(auto, unfolding(crate::specs::Starts::start_entry))]
fn start_entry(value: &Value, format: Format, objects: u32, item: u32) -> Result<Entry, Refusal>
    ensures read { Gives (λ entry. entry) result (start_entry format objects item (view value.now)) }
    ensures entry { IfOk result (IsEntry objects) }
{
    let table = table_of(value, item)?;
    let time = required_number(table, "time", item, 0, LAST_TICK)?;
    let at = required_number(table, "at", item, 0, u64::from(MOST_OBJECTS - 1))? as u32;
    let rank = rank(table, format, item)?;
    only(table, entry_keys(format), item)?;
    if at >= objects {
        return Err(Cause::BadLink.at(item));
    }
    Ok(Entry { time, at, rank })
}

/// The entries one after another, the first with item 1.
pub(crate) fn start_entries(
    alloc: Global,
    values: &[Value],
    format: Format,
    objects: u32,
) -> Result<Vec<Entry>, Refusal>
    requires { length values.now ≤ MOST_ENTRIES }
    ensures read { Gives (λ entries. entries.items) result (start_entries format objects (items_view values.now)) }
    ensures count { IfOk result (λ entries. length entries.items ≡ length values.now) }
    ensures entries { IfOk result (λ entries. All (IsEntry objects) entries.items) }
{
    let mut entries = Vec::new(alloc);
    let mut item = 1;
    for value in values {
        entries.push(start_entry(value, format, objects, item)?)?;
        item += 1;
    }
    Ok(entries)
}
