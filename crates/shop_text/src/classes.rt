//! The classes with their fields.
ghost use Rattle.std.specs.Prelude.{◌≡◌, ℕ, ◌≤◌, ◌+◌, All, IfOk, length, sum_by};
ghost use Rattle.std.specs.Option.{ForSome};
ghost use Rattle.toml.specs.View.{view, items_view, table_view};
ghost use Rattle.model_core.specs.declared.limits.TheConstants.{MOST_OBJECTS};
ghost use Rattle.shop_model.specs.declared.class.TheConstants.{MOST_DUE, MOST_PRIORITY, MOST_TIMES};
ghost use Rattle.text_fields.specs.Checks.{Gives};
ghost use Rattle.text_fields.specs.Directories.{finder};
ghost use Rattle.shop_text.specs.ClassTexts.{urgency, class_with, class_fields, class_route, class_named, class, classes};
ghost use Rattle.shop_text.specs.Ranges.{HasClassFields, IsClassText, IsRoute, LinksBelow};
ghost use Rattle.shop_text.specs.Views.{class_text, class_texts};

use crate::arrivals::{Arrivals, Batches, read_arrivals};
use crate::named::{NamedClass, NamedStep};
use crate::routes::route;
use model_core::{Name, Sequence};
use shop_model::{Class, MOST_DUE, MOST_PRIORITY};
use std::alloc::Global;
use text_fields::{
    Directory, Place, Refusal, number_or, only, optional_number, required, required_name, table_of,
};
use toml::{Table, Value};

/// How urgent the jobs of a class are, and how soon they are due.
#[derive(Clone, Copy)]
struct Urgency {
    priority: u32,
    due: Option<u64>,
}

/// How urgent the jobs of a class are, and how soon they are due.
#[tactic(auto, unfolding(crate::specs::ClassTexts::urgency))]
fn read_urgency(table: &Table, item: u32) -> Result<Urgency, Refusal>
    ensures read { Gives (λ urgency. urgency) result (urgency item (table_view table.now)) }
    ensures priority { IfOk result (λ urgency. urgency.priority ≤ MOST_PRIORITY) }
    ensures due { IfOk result (λ urgency. ForSome urgency.due (λ due. due ≤ MOST_DUE)) }
{
    let most = u64::from(MOST_PRIORITY);
    let priority = number_or(table, "priority", item, 0, 0, most)? as u32;
    let due = optional_number(table, "due", item, 0, MOST_DUE)?;
    Ok(Urgency { priority, due })
}

/// A class but for its route.
fn class_with(alloc: Global, name: Name, arrivals: Arrivals, urgency: Urgency) -> Class
    ensures { result ≡ class_with name arrivals urgency }
{
    let Arrivals {
        every,
        window,
        times,
        batches,
    } = arrivals;
    let Batches { batch, count } = batches;
    Class {
        name,
        every,
        first: window.first,
        until: window.until,
        times,
        batch,
        count,
        priority: urgency.priority,
        due: urgency.due,
        route: Sequence::new(Vec::new(alloc)),
    }
}

/// The class with this name but for its route, where the classes before name so many ticks.
#[tactic(auto, unfolding(crate::specs::ClassTexts::class_fields))]
fn class_fields(
    alloc: Global,
    table: &Table,
    name: &str,
    times: usize,
    item: u32,
) -> Result<Class, Refusal>
    requires { times ≤ MOST_TIMES }
    ensures read { Gives (λ class. class) result (class_fields item times name.now (table_view table.now)) }
    ensures in_range { IfOk result HasClassFields }
    ensures few { IfOk result (λ class. times + length class.times ≤ MOST_TIMES) }
{
    let name = Name::of(alloc, name.as_bytes())?;
    let arrivals = read_arrivals(alloc, table, times, item)?;
    let urgency = read_urgency(table, item)?;
    Ok(class_with(alloc, name, arrivals, urgency))
}

/// The route of a class, and its labels. Its table may have no other keys than those of a class.
#[tactic(auto, unfolding(crate::specs::ClassTexts::class_route))]
fn class_route<'a>(
    alloc: Global,
    table: &'a Table,
    item: u32,
) -> Result<(Vec<NamedStep>, Directory<'a>), Refusal>
    ensures read { Gives (λ read. (read.0.items, finder read.1)) result (class_route item (table_view table.now)) }
    ensures in_range { IfOk result (λ read. IsRoute read.0.items (finder read.1)) }
{
    let read = route(alloc, required(table, "route", item)?, item)?;
    only(
        table,
        &[
            "name", "every", "first", "until", "times", "batch", "count", "priority", "due",
            "route",
        ],
        item,
    )?;
    Ok(read)
}

/// The class with this name, where the classes before name so many ticks.
#[tactic(auto, unfolding(crate::specs::ClassTexts::class_named))]
fn class_named<'a>(
    alloc: Global,
    table: &'a Table,
    name: &str,
    times: usize,
    item: u32,
) -> Result<NamedClass<'a>, Refusal>
    requires { times ≤ MOST_TIMES }
    ensures read { Gives class_text result (class_named item times name.now (table_view table.now)) }
    ensures in_range { IfOk result (λ named. IsClassText (class_text named)) }
    ensures few { IfOk result (λ named. times + length named.class.times ≤ MOST_TIMES) }
{
    let class = class_fields(alloc, table, name, times, item)?;
    let (route, labels) = class_route(alloc, table, item)?;
    Ok(NamedClass {
        class,
        route,
        labels,
    })
}

/// The class with this item, which may have none of the names in the directory and is taken in there, where the classes
/// before name so many ticks.
#[tactic(auto, unfolding(crate::specs::ClassTexts::class))]
fn class<'a>(
    alloc: Global,
    value: &'a Value,
    directory: &mut Directory<'a>,
    times: usize,
    item: u32,
) -> Result<NamedClass<'a>, Refusal>
    requires item { 1 ≤ item }
    requires times { times ≤ MOST_TIMES }
    ensures read { Gives (λ named. (class_text named, record { find = finder directory.new; times = times + length named.class.times }))
        result (class item (record { find = finder directory.old; times = times }) (view value.now)) }
    ensures in_range { IfOk result (λ named. IsClassText (class_text named)) }
    ensures few { IfOk result (λ named. times + length named.class.times ≤ MOST_TIMES) }
    ensures links { (most : ℕ) → LinksBelow most (finder directory.old) → IfOk result (λ _. LinksBelow most (finder directory.new)) }
{
    let table = table_of(value, item)?;
    let place = Place {
        number: item - 1,
        takes_links: false,
    };
    let name = required_name(table, directory, place, item)?;
    class_named(alloc, table, name, times, item)
}

/// The classes one after another, with items from this one on. They are taken in by the directory.
pub(crate) fn classes<'a>(
    alloc: Global,
    values: &'a [Value],
    directory: &mut Directory<'a>,
    first: u32,
) -> Result<Vec<NamedClass<'a>>, Refusal>
    requires first { 1 ≤ first }
    requires few { first + length values.now ≤ MOST_OBJECTS + 1 }
    ensures read { Gives (λ named. (class_texts named.items, record { find = finder directory.new; times = sum_by (λ (named : NamedClass). length named.class.times) named.items }))
        result (classes first (finder directory.old) (items_view values.now)) }
    ensures count { IfOk result (λ named. length named.items ≡ length values.now) }
    ensures in_range { IfOk result (λ named. All (λ (named : NamedClass). IsClassText (class_text named)) named.items) }
    ensures few_times { IfOk result (λ named. sum_by (λ (named : NamedClass). length named.class.times) named.items ≤ MOST_TIMES) }
    ensures links { (most : ℕ) → LinksBelow most (finder directory.old) → IfOk result (λ _. LinksBelow most (finder directory.new)) }
{
    let mut classes: Vec<NamedClass<'a>> = Vec::new(alloc);
    let mut times = 0;
    for value in values {
        let item = first + classes.len() as u32;
        let class = class(alloc, value, directory, times, item)?;
        times += class.class.times.as_slice().len();
        classes.push(class)?;
    }
    Ok(classes)
}
