//! Fields that came with the second format. A text of the first format has none of them.
ghost use Rattle.std.specs.Prelude.{◌≡◌, ◌≤◌, IfOk, IsTrue, not, ◌||◌, map};
ghost use Rattle.event_key.specs.declared.key.TheConstants.{MOST_RANK};
ghost use Rattle.queue_models.specs.Kinds.{is_station};
ghost use Rattle.toml.specs.View.{table_view};
ghost use Rattle.model_text.specs.Additions.{rank, flag, trace, entry_keys};
ghost use Rattle.text_fields.specs.Checks.{Gives};

use crate::formats::Format;
use crate::named::NamedKind;
use event_key::MOST_RANK;
use text_fields::{Refusal, number_or, truth_or};
use toml::Table;

/// The rank of an object, of a job, or of events that begin a model.
pub(crate) fn rank(table: &Table, format: Format, item: u32) -> Result<u32, Refusal>
    ensures read { Gives (λ rank. rank) result (rank format item (table_view table.now)) }
    ensures in_range { IfOk result (λ rank. rank ≤ MOST_RANK) }
{
    match format {
        Format::One => Ok(0),
        Format::Two => { Ok(number_or(table, "rank", item, 0, 0, u64::from(MOST_RANK))? as u32) }
    }
}

/// A truth value.
pub(crate) fn flag(table: &Table, key: &str, format: Format, item: u32) -> Result<bool, Refusal>
    ensures { Gives (λ flag. flag) result (flag format item key.now (table_view table.now)) }
{
    match format {
        Format::One => Ok(false),
        Format::Two => truth_or(table, key, item, false),
    }
}

/// Whether an object of this kind is traced, which only a station can be.
pub(crate) fn trace(
    table: &Table,
    kind: &NamedKind,
    format: Format,
    item: u32,
) -> Result<bool, Refusal>
    ensures read { Gives (λ trace. trace) result (trace format kind.now item (table_view table.now)) }
    ensures in_range { IfOk result (λ trace. IsTrue (not trace || is_station kind.now)) }
{
    if kind.is_station() {
        flag(table, "trace", format, item)
    } else {
        Ok(false)
    }
}

/// The keys that a job may have, and an entry of `start`.
pub(crate) fn entry_keys(format: Format) -> &'static [&'static str]
    ensures { map (λ name. name.now) result.now ≡ entry_keys format }
{
    match format {
        Format::One => &["time", "at"],
        Format::Two => &["time", "at", "rank"],
    }
}
