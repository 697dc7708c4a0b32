//! Pass one: the objects with their fields.
ghost use Rattle.std.specs.Prelude.{◌≡◌, ◌≢◌, ◌+◌, ◌<◌, ◌≤◌, ◌||◌, not, length, All, AllPairs, IfOk, IsTrue, None};
ghost use Rattle.event_key.specs.declared.key.TheConstants.{MOST_RANK};
ghost use Rattle.queue_models.specs.Kinds.{is_station};
ghost use Rattle.toml.specs.View.{view, items_view, table_view};
ghost use Rattle.model_core.specs.declared.limits.TheConstants.{MOST_OBJECTS};
ghost use Rattle.text_fields.specs.Checks.{Gives};
ghost use Rattle.text_fields.specs.Directories.{finder};
ghost use Rattle.model_text.specs.NamedItems.{IsNamedItem};
ghost use Rattle.text_fields.specs.Names.{TakesIn, is_name};
ghost use Rattle.model_text.specs.Names.{NamedItem, place_in, place_of};
ghost use Rattle.model_text.specs.Objects.{common_fields, object, object_named, objects};

use crate::additions::{flag, rank, trace};
use crate::formats::Format;
use crate::kinds::{known_keys, named_kind};
use crate::named::{NamedItem, NamedKind};
use model_core::Name;
use std::alloc::Global;
use text_fields::{Directory, Place, Refusal, only, required_name, required_text, table_of};
use toml::{Table, Value};

/// What objects of all kinds have.
#[derive(Clone, Copy)]
struct CommonFields {
    rank: u32,
    quiet: bool,
    trace: bool,
}

/// What an object of this kind has as all do. Its table may have no other keys than those of its kind.
#[tactic(auto, unfolding(crate::specs::Objects::common_fields))]
fn common_fields(
    table: &Table,
    kind: &NamedKind,
    format: Format,
    item: u32,
) -> Result<CommonFields, Refusal>
    ensures read { Gives (λ fields. fields) result (common_fields format kind.now item (table_view table.now)) }
    ensures rank { IfOk result (λ fields. fields.rank ≤ MOST_RANK) }
    ensures traced { IfOk result (λ fields. IsTrue (not fields.trace || is_station kind.now)) }
{
    let rank = rank(table, format, item)?;
    let quiet = flag(table, "quiet", format, item)?;
    let trace = trace(table, kind, format, item)?;
    only(table, known_keys(format, kind), item)?;
    Ok(CommonFields { rank, quiet, trace })
}

/// The object with this name.
#[tactic(auto, unfolding(crate::specs::Objects::object_named))]
fn object_named(
    alloc: Global,
    table: &Table,
    name: &str,
    format: Format,
    item: u32,
) -> Result<NamedItem, Refusal>
    requires { IsTrue (is_name name.now) }
    ensures read { Gives (λ object. object) result (object_named format item name.now (table_view table.now)) }
    ensures in_range { IfOk result IsNamedItem }
    ensures name { IfOk result (λ object. object.name ≡ name.now) }
{
    let word = required_text(table, "kind", item)?;
    let name = Name::of(alloc, name.as_bytes())?;
    let kind = named_kind(alloc, table, word, item)?;
    let fields = common_fields(table, &kind, format, item)?;
    Ok(NamedItem {
        name,
        kind,
        rank: fields.rank,
        quiet: fields.quiet,
        trace: fields.trace,
    })
}

/// The object with this number, counted from 0, which may have none of the names in the directory and is taken in there.
#[tactic(auto, unfolding(crate::specs::Objects::object))]
fn object<'a>(
    alloc: Global,
    value: &'a Value,
    format: Format,
    directory: &mut Directory<'a>,
    number: u32,
) -> Result<NamedItem, Refusal>
    requires { number < MOST_OBJECTS }
    ensures read { Gives (λ object. object) result (object format (finder directory.old) (number + 1) (view value.now)) }
    ensures in_range { IfOk result IsNamedItem }
    ensures new { IfOk result (λ object. finder directory.old object.name ≡ None) }
    ensures taken_in { IfOk result (λ object. TakesIn (finder directory.old) (finder directory.new) object.name (place_of number object)) }
{
    let item = number + 1;
    let table = table_of(value, item)?;
    let place = Place {
        number,
        takes_links: true,
    };
    let name = required_name(table, directory, place, item)?;
    let object = object_named(alloc, table, name, format, item)?;
    if !object.kind.is_source() {
        return Ok(object);
    }
    // nothing may be sent to a source
    let place = Place {
        number,
        takes_links: false,
    };
    directory.add(name.as_bytes(), place)?;
    Ok(object)
}

/// The objects one after another, the first with item 1, and a directory of them.
pub(crate) fn objects<'a>(
    alloc: Global,
    values: &'a [Value],
    format: Format,
) -> Result<(Vec<NamedItem>, Directory<'a>), Refusal>
    requires { length values.now ≤ MOST_OBJECTS }
    ensures read { Gives (λ read. read.0.items) result (objects format (items_view values.now)) }
    ensures found { IfOk result (λ read. finder read.1 ≡ place_in read.0.items) }
    ensures count { IfOk result (λ read. length read.0.items ≡ length values.now) }
    ensures in_range { IfOk result (λ read. All IsNamedItem read.0.items) }
    ensures names_differ { IfOk result (λ read. AllPairs (λ (a b : NamedItem). a.name ≢ b.name) read.0.items) }
{
    let mut objects = Vec::new(alloc);
    let mut directory = Directory::new(alloc);
    for value in values {
        let number = objects.len() as u32;
        let object = object(alloc, value, format, &mut directory, number)?;
        objects.push(object)?;
    }
    Ok((objects, directory))
}
