//! A route: its steps, and their labels.
ghost use Rattle.std.specs.Prelude.{◌≡◌, ◌≤◌, ◌+◌, All, IfOk, codes, length};
ghost use Rattle.toml.specs.Data.{get_member};
ghost use Rattle.toml.specs.View.{view, items_view, table_view};
ghost use Rattle.shop_model.specs.declared.class.TheConstants.{MOST_STEPS};
ghost use Rattle.text_fields.specs.Checks.{Gives};
ghost use Rattle.text_fields.specs.Directories.{finder};
ghost use Rattle.shop_text.specs.Ranges.{IsNamedStep, IsRoute, LinksBelow};
ghost use Rattle.shop_text.specs.StepTexts.{label, step, step_place, route_ends, steps, route};

use crate::named::NamedStep;
use crate::steps::step_form;
use shop_model::MOST_STEPS;
use std::alloc::{AllocError, Global};
use text_fields::{
    Cause, Directory, Place, Refusal, array_of, field, item_count, new_name, table_of,
};
use toml::{Table, Value};

/// What the label of the step with this number stands for.
fn step_place(number: u32) -> Place
    ensures { result ≡ step_place number }
{
    Place {
        number,
        takes_links: true,
    }
}

/// Takes in the label of the step with this number, if it has one.
fn label<'a>(
    table: &'a Table,
    labels: &mut Directory<'a>,
    number: u32,
    item: u32,
) -> Result<(), Refusal>
    ensures { Gives (λ _. finder labels.new) result (label item number (finder labels.old) (get_member (codes "label") (table_view table.now))) }
{
    match field(table, "label") {
        Some(value) => {
            new_name(value, labels, step_place(number), item)?;
            Ok(())
        }
        None => Ok(()),
    }
}

/// The step with this number, which may have none of the labels before it.
#[tactic(auto, unfolding(crate::specs::StepTexts::step))]
fn step<'a>(
    alloc: Global,
    value: &'a Value,
    labels: &mut Directory<'a>,
    number: u32,
    item: u32,
) -> Result<NamedStep, Refusal>
    ensures read { Gives (λ step. (step, finder labels.new)) result (step item number (finder labels.old) (view value.now)) }
    ensures in_range { IfOk result IsNamedStep }
{
    let table = table_of(value, item)?;
    label(table, labels, number, item)?;
    step_form(alloc, table, item)
}

/// The labels of the two ends of a route of so many steps.
fn route_ends<'a>(alloc: Global, steps: u32) -> Result<Directory<'a>, AllocError>
    requires { steps ≤ MOST_STEPS }
    ensures { IfOk result (λ labels. finder labels ≡ route_ends steps) }
{
    let mut labels = Directory::new(alloc);
    labels.add(b"out", step_place(steps))?;
    labels.add(b"drop", step_place(steps + 1))?;
    Ok(labels)
}

/// The steps one after another, and their labels.
fn steps<'a>(
    alloc: Global,
    values: &'a [Value],
    item: u32,
) -> Result<(Vec<NamedStep>, Directory<'a>), Refusal>
    requires { length values.now ≤ MOST_STEPS }
    ensures read { Gives (λ read. (read.0.items, finder read.1)) result (steps item (items_view values.now)) }
    ensures count { IfOk result (λ read. length read.0.items ≡ length values.now) }
    ensures in_range { IfOk result (λ read. All IsNamedStep read.0.items) }
    ensures labels { IfOk result (λ read. LinksBelow (length values.now + 2) (finder read.1)) }
{
    let mut steps = Vec::new(alloc);
    let mut labels = route_ends(alloc, item_count(values) as u32)?;
    for value in values {
        let number = steps.len() as u32;
        steps.push(step(alloc, value, &mut labels, number, item)?)?;
    }
    Ok((steps, labels))
}

/// A route, and its labels.
#[tactic(auto, unfolding(crate::specs::StepTexts::route))]
pub(crate) fn route<'a>(
    alloc: Global,
    value: &'a Value,
    item: u32,
) -> Result<(Vec<NamedStep>, Directory<'a>), Refusal>
    ensures read { Gives (λ read. (read.0.items, finder read.1)) result (route item (view value.now)) }
    ensures in_range { IfOk result (λ read. IsRoute read.0.items (finder read.1)) }
{
    let values = array_of(value, item, MOST_STEPS)?;
    if item_count(values) == 0 {
        return Err(Cause::BadValue.at(item));
    }
    steps(alloc, values, item)
}
