//! Pass three: the jobs.
ghost use Rattle.std.specs.Prelude.{◌≡◌, ◌≤◌, ◌+◌, length, All, IfOk};
ghost use Rattle.toml.specs.View.{view, items_view};
ghost use Rattle.model_core.specs.declared.limits.TheConstants.{MOST_ENTRIES, MOST_OBJECTS};
ghost use Rattle.text_fields.specs.Checks.{Gives};
ghost use Rattle.text_fields.specs.Directories.{finder};
ghost use Rattle.model_text.specs.Jobs.{job, jobs_from};
ghost use Rattle.model_text.specs.Linked.{IsLinkedJob};

use crate::additions::{entry_keys, rank};
use crate::formats::Format;
use event_key::LAST_TICK;
use model_core::Entry;
use std::alloc::Global;
use text_fields::{Directory, Refusal, link, only, required_number, required_text, table_of};
use toml::Value;

/// A job, which begins at an object that is named and is no source.
#[tactic(auto, unfolding(crate::specs::Jobs::job))]
fn job(value: &Value, format: Format, directory: &Directory, item: u32) -> Result<Entry, Refusal>
    ensures read { Gives (λ job. job) result (job format (finder directory.now) item (view value.now)) }
    ensures linked { IfOk result (IsLinkedJob (finder directory.now)) }
{
    let table = table_of(value, item)?;
    let time = required_number(table, "time", item, 0, LAST_TICK)?;
    let name = required_text(table, "at", item)?;
    let rank = rank(table, format, item)?;
    only(table, entry_keys(format), item)?;
    let at = link(directory, name.as_bytes(), item)?;
    Ok(Entry { time, at, rank })
}

/// The jobs one after another, with items from the first on.
pub(crate) fn jobs(
    alloc: Global,
    values: &[Value],
    format: Format,
    directory: &Directory,
    first_item: u32,
) -> Result<Vec<Entry>, Refusal>
    requires objects { first_item ≤ MOST_OBJECTS + 1 }
    requires few { length values.now ≤ MOST_ENTRIES }
    ensures read { Gives (λ jobs. jobs.items) result (jobs_from format (finder directory.now) first_item (items_view values.now)) }
    ensures count { IfOk result (λ jobs. length jobs.items ≡ length values.now) }
    ensures linked { IfOk result (λ jobs. All (IsLinkedJob (finder directory.now)) jobs.items) }
{
    let mut jobs = Vec::new(alloc);
    let mut item = first_item;
    for value in values {
        jobs.push(job(value, format, directory, item)?)?;
        item += 1;
    }
    Ok(jobs)
}
