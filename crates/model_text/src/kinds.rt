//! The kinds of objects, each with its fields, its keys and its links.
ghost use Rattle.std.specs.Prelude.{◌≡◌, ◌^◌, ◌<◌, IfOk, codes, map};
ghost use Rattle.std.specs.Option.{ForSome};
ghost use Rattle.toml.specs.Data.{get_member};
ghost use Rattle.toml.specs.View.{view, table_view};
ghost use Rattle.queue_models.specs.Kinds.{IsKind};
ghost use Rattle.model_text.specs.declared.formats.Format.TheVariants.{One, Two};
ghost use Rattle.text_fields.specs.Checks.{Gives};
ghost use Rattle.text_fields.specs.Directories.{finder};
ghost use Rattle.text_fields.specs.Fields.{required_text};
ghost use Rattle.model_text.specs.NamedItems.{AnyName};
ghost use Rattle.model_text.specs.Kinds.{source, station, delay, router, sink, named_kind, linked_kind};
ghost use Rattle.model_text.specs.Objects.{known_keys};

use crate::formats::Format;
use crate::named::NamedKind;
use event_key::LAST_TICK;
use model_core::Name;
use queue_models::{
    Delay, Kind, MOST_JOBS, MOST_SERVERS, MOST_WAITING, Router, Sink, Source, Station,
};
use std::alloc::Global;
use text_fields::{
    Cause, Directory, Refusal, link, links, number_or, optional_number, optional_weights, required,
    required_law, required_number, required_text, truth_or, ways,
};
use toml::Table;

/// The name of the object to which jobs go on.
fn next_name(alloc: Global, table: &Table, item: u32) -> Result<Name, Refusal>
    ensures { Gives (λ name. name) result (required_text item (codes "next") (table_view table.now)) }
{
    let next = required_text(table, "next", item)?;
    Ok(Name::of(alloc, next.as_bytes())?)
}

/// A source.
#[tactic(auto, unfolding(crate::specs::Kinds::source))]
fn source(alloc: Global, table: &Table, item: u32) -> Result<NamedKind, Refusal>
    ensures read { Gives (λ kind. kind) result (source item (table_view table.now)) }
    ensures in_range { IfOk result (IsKind AnyName) }
{
    let first = required_number(table, "first", item, 0, LAST_TICK)?;
    let every = required_law(table, "every", item)?;
    let count = required_number(table, "count", item, 1, u64::from(MOST_JOBS))? as u32;
    let next = next_name(alloc, table, item)?;
    Ok(NamedKind::Source(Source {
        first,
        every,
        count,
        next,
    }))
}

/// A station.
#[tactic(auto, unfolding(crate::specs::Kinds::station))]
fn station(alloc: Global, table: &Table, item: u32) -> Result<NamedKind, Refusal>
    ensures read { Gives (λ kind. kind) result (station item (table_view table.now)) }
    ensures in_range { IfOk result (IsKind AnyName) }
{
    let servers = number_or(table, "servers", item, 1, 1, u64::from(MOST_SERVERS))? as u32;
    let service = required_law(table, "service", item)?;
    let most = u64::from(MOST_WAITING);
    let line = number_or(table, "line", item, most, 0, most)? as u32;
    let strict = truth_or(table, "strict", item, false)?;
    let next = next_name(alloc, table, item)?;
    Ok(NamedKind::Station(Station {
        servers,
        service,
        line,
        strict,
        next,
    }))
}

/// A delay.
#[tactic(auto, unfolding(crate::specs::Kinds::delay))]
fn delay(alloc: Global, table: &Table, item: u32) -> Result<NamedKind, Refusal>
    ensures read { Gives (λ kind. kind) result (delay item (table_view table.now)) }
    ensures in_range { IfOk result (IsKind AnyName) }
{
    let delay = required_law(table, "delay", item)?;
    let next = next_name(alloc, table, item)?;
    Ok(NamedKind::Delay(Delay { delay, next }))
}

/// A router.
#[tactic(auto, unfolding(crate::specs::Kinds::router, random_streams::specs::Laws::is_drawable))]
fn router(alloc: Global, table: &Table, item: u32) -> Result<NamedKind, Refusal>
    ensures read { Gives (λ kind. kind) result (router item (table_view table.now)) }
    ensures in_range { IfOk result (IsKind AnyName) }
{
    let next = ways(alloc, required(table, "next", item)?, item)?;
    let weights = optional_weights(alloc, table, "weights", item, next.as_slice().len())?;
    Ok(NamedKind::Router(Router { next, weights }))
}

/// A sink.
#[tactic(auto, unfolding(crate::specs::Kinds::sink))]
fn sink(table: &Table, item: u32) -> Result<NamedKind, Refusal>
    ensures read { Gives (λ kind. kind) result (sink item (table_view table.now)) }
    ensures in_range { IfOk result (IsKind AnyName) }
{
    let due = optional_number(table, "due", item, 0, LAST_TICK)?;
    Ok(NamedKind::Sink(Sink { due }))
}

/// The kind with this word, and its fields.
pub(crate) fn named_kind(
    alloc: Global,
    table: &Table,
    word: &str,
    item: u32,
) -> Result<NamedKind, Refusal>
    ensures read { Gives (λ kind. kind) result (named_kind item (table_view table.now) word.now) }
    ensures in_range { IfOk result (IsKind AnyName) }
{
    match word {
        "source" => source(alloc, table, item),
        "station" => station(alloc, table, item),
        "delay" => delay(alloc, table, item),
        "router" => router(alloc, table, item),
        "sink" => sink(table, item),
        _ => Err(Cause::BadValue.at(item)),
    }
}

/// What an object does, with numbers of objects in place of their names.
pub(crate) fn linked_kind(
    alloc: Global,
    directory: &Directory,
    kind: NamedKind,
    item: u32,
) -> Result<Kind, Refusal>
    ensures { Gives (λ kind. kind) result (linked_kind (finder directory.now) item kind) }
{
    match kind {
        NamedKind::Source(source) => {
            let next = link(directory, source.next.bytes(), item)?;
            Ok(Kind::Source(source.sending_to(next)))
        }
        NamedKind::Station(station) => {
            let next = link(directory, station.next.bytes(), item)?;
            Ok(Kind::Station(station.sending_to(next)))
        }
        NamedKind::Delay(delay) => {
            let next = link(directory, delay.next.bytes(), item)?;
            Ok(Kind::Delay(delay.sending_to(next)))
        }
        NamedKind::Router(router) => {
            let next = links(alloc, directory, router.next.as_slice(), item)?;
            Ok(Kind::Router(router.sending_to(next)))
        }
        NamedKind::Sink(sink) => Ok(Kind::Sink(sink)),
    }
}

/// The keys that an object of each kind may have.
pub(crate) fn known_keys(format: Format, kind: &NamedKind) -> &'static [&'static str]
    ensures { map (λ name. name.now) result.now ≡ known_keys format kind.now }
{
    match format {
        Format::One => first_keys(kind),
        Format::Two => second_keys(kind),
    }
}

/// Those of the first format.
fn first_keys(kind: &NamedKind) -> &'static [&'static str]
    ensures { map (λ name. name.now) result.now ≡ known_keys One kind.now }
{
    match kind {
        NamedKind::Source(_) => &["name", "kind", "first", "every", "count", "next"],
        NamedKind::Station(_) => &[
            "name", "kind", "servers", "service", "line", "strict", "next",
        ],
        NamedKind::Delay(_) => &["name", "kind", "delay", "next"],
        NamedKind::Router(_) => &["name", "kind", "next", "weights"],
        NamedKind::Sink(_) => &["name", "kind", "due"],
    }
}

/// Those of the second format.
fn second_keys(kind: &NamedKind) -> &'static [&'static str]
    ensures { map (λ name. name.now) result.now ≡ known_keys Two kind.now }
{
    match kind {
        NamedKind::Source(_) => &[
            "name", "kind", "first", "every", "count", "next", "rank", "quiet",
        ],
        NamedKind::Station(_) => &[
            "name", "kind", "servers", "service", "line", "strict", "next", "rank", "quiet",
            "trace",
        ],
        NamedKind::Delay(_) => &["name", "kind", "delay", "next", "rank", "quiet"],
        NamedKind::Router(_) => &["name", "kind", "next", "weights", "rank", "quiet"],
        NamedKind::Sink(_) => &["name", "kind", "due", "rank", "quiet"],
    }
}
