//! The body of a network.
ghost use Rattle.std.specs.Prelude.{◌≡◌, ◌≢◌, ◌+◌, ◌<◌, ◌≤◌, ◌^◌, IfOk, length, All, AllPairs};
ghost use Rattle.toml.specs.View.{items_view, table_view};
ghost use Rattle.model_core.specs.declared.limits.TheConstants.{MOST_ENTRIES, MOST_OBJECTS};
ghost use Rattle.queue_models.specs.Views.{parts_of};
ghost use Rattle.text_fields.specs.Checks.{Gives};
ghost use Rattle.text_fields.specs.Directories.{finder};
ghost use Rattle.model_text.specs.NamedItems.{IsNamedItem};
ghost use Rattle.model_text.specs.Names.{NamedItem, place_in};
ghost use Rattle.model_text.specs.Networks.{linked_network, network, network_family};

use crate::formats::Format;
use crate::jobs::jobs;
use crate::links::linked_items;
use crate::named::NamedItem;
use crate::objects::objects;
use model_core::{MOST_ENTRIES, MOST_OBJECTS};
use queue_models::Network;
use std::alloc::Global;
use text_fields::{Directory, Refusal, optional_array};
use toml::{Table, Value};

/// The item of the first job, which follows those of the objects.
fn first_job_item(objects: &[NamedItem]) -> u32
    requires { length objects.now ≤ MOST_OBJECTS }
    ensures { result ≡ length objects.now + 1 }
{
    objects.len() as u32 + 1
}

/// Passes two and three, over the objects of pass one.
#[tactic(auto, unfolding(crate::specs::Networks::linked_network))]
fn linked_network(
    alloc: Global,
    format: Format,
    seed: u64,
    named: Vec<NamedItem>,
    directory: &Directory,
    entries: &[Value],
) -> Result<Network, Refusal>
    requires seed { seed < 2 ^ 63 }
    requires few_objects { length named.items ≤ MOST_OBJECTS }
    requires few_jobs { length entries.now ≤ MOST_ENTRIES }
    requires found { finder directory.now ≡ place_in named.items }
    requires in_range { All IsNamedItem named.items }
    requires names_differ { AllPairs (λ (a b : NamedItem). a.name ≢ b.name) named.items }
    ensures read { Gives network_family result (linked_network format named.items (items_view entries.now)) }
    ensures own { IfOk result (λ model. (parts_of model).seed ≡ seed) }
{
    let first_job = first_job_item(&named);
    let items = linked_items(alloc, directory, named)?;
    let jobs = jobs(alloc, entries, format, directory, first_job)?;
    Ok(Network::make(alloc, seed, items, jobs)?)
}

/// The arrays `object` and `job`, of a network whose own seed is this.
#[tactic(auto, unfolding(crate::specs::Networks::network))]
pub(crate) fn network(
    alloc: Global,
    table: &Table,
    format: Format,
    seed: u64,
) -> Result<Network, Refusal>
    requires { seed < 2 ^ 63 }
    ensures read { Gives network_family result (network format (table_view table.now)) }
    ensures own { IfOk result (λ model. (parts_of model).seed ≡ seed) }
{
    let tables = optional_array(table, "object", 0, MOST_OBJECTS as usize)?;
    let entries = optional_array(table, "job", 0, MOST_ENTRIES)?;
    let (named, directory) = objects(alloc, tables, format)?;
    linked_network(alloc, format, seed, named, &directory, entries)
}
