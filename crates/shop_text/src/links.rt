//! Pass two: the names of stations and the labels of steps become numbers.
ghost use Rattle.std.specs.Prelude.{◌≡◌, ◌≤◌, ◌+◌, All, IfOk, length, map};
ghost use Rattle.model_core.specs.declared.limits.TheConstants.{MOST_OBJECTS};
ghost use Rattle.shop_model.specs.declared.class.TheConstants.{MOST_STEPS};
ghost use Rattle.text_fields.specs.Checks.{Gives};
ghost use Rattle.text_fields.specs.Directories.{finder};
ghost use Rattle.shop_text.specs.LinkedRoutes.{visit_links, visit_with, linked_visit, linked_step, linked_steps, linked_class};
ghost use Rattle.shop_text.specs.Views.{class_text, linked_named};

use crate::named::{NamedClass, NamedStep, NamedVisit, VisitNames};
use model_core::Sequence;
use shop_model::{Branch, Class, Step, Visit};
use std::alloc::Global;
use text_fields::{Directory, Refusal, link, links};

/// The number of the station of a visit, and those of the steps to which a job goes that isn't served.
#[derive(Clone, Copy)]
struct VisitLinks {
    station: u32,
    away: u32,
    full: u32,
}

/// The numbers of a visit in place of its names.
#[tactic(auto, unfolding(crate::specs::LinkedRoutes::visit_links))]
fn visit_links(
    stations: &Directory,
    labels: &Directory,
    names: &VisitNames,
    item: u32,
) -> Result<VisitLinks, Refusal>
    ensures { Gives (λ links. links) result (visit_links (finder stations.now) (finder labels.now) item names.now) }
{
    let station = link(stations, names.station.bytes(), item)?;
    let away = link(labels, names.away.bytes(), item)?;
    let full = link(labels, names.full.bytes(), item)?;
    Ok(VisitLinks {
        station,
        away,
        full,
    })
}

/// A visit with these numbers.
fn visit_with(visit: NamedVisit, links: VisitLinks) -> Step
    ensures { result ≡ visit_with visit links }
{
    Step::Visit(Visit {
        station: links.station,
        service: visit.service,
        patience: visit.patience,
        away: links.away,
        full: links.full,
    })
}

/// A visit, with the number of its station, and those of steps in place of labels.
#[tactic(auto, unfolding(crate::specs::LinkedRoutes::linked_visit))]
fn linked_visit(
    stations: &Directory,
    labels: &Directory,
    visit: NamedVisit,
    item: u32,
) -> Result<Step, Refusal>
    ensures { Gives (λ step. step) result (linked_visit (finder stations.now) (finder labels.now) item visit) }
{
    let links = visit_links(stations, labels, &visit.names, item)?;
    Ok(visit_with(visit, links))
}

/// A step, with numbers in place of names.
fn linked_step(
    alloc: Global,
    stations: &Directory,
    labels: &Directory,
    step: NamedStep,
    item: u32,
) -> Result<Step, Refusal>
    ensures { Gives (λ step. step) result (linked_step (finder stations.now) (finder labels.now) item step) }
{
    match step {
        NamedStep::Visit(visit) => linked_visit(stations, labels, visit, item),
        NamedStep::Free { station } => {
            let station = link(stations, station.bytes(), item)?;
            Ok(Step::Free { station })
        }
        NamedStep::Delay { law } => Ok(Step::Delay { law }),
        NamedStep::Go { steps, weights } => {
            let steps = links(alloc, labels, steps.as_slice(), item)?;
            Ok(Step::Go(Branch { steps, weights }))
        }
    }
}

/// The steps of a route one after another.
fn linked_steps(
    alloc: Global,
    stations: &Directory,
    labels: &Directory,
    route: Vec<NamedStep>,
    item: u32,
) -> Result<Vec<Step>, Refusal>
    ensures { Gives (λ steps. steps.items) result (linked_steps (finder stations.now) (finder labels.now) item route.items) }
{
    let mut steps = Vec::with_capacity(alloc, route.len())?;
    for step in route {
        steps.push(linked_step(alloc, stations, labels, step, item)?)?;
    }
    Ok(steps)
}

/// A class with its route.
#[tactic(auto, unfolding(crate::specs::LinkedRoutes::linked_class))]
fn linked_class(
    alloc: Global,
    stations: &Directory,
    named: NamedClass,
    item: u32,
) -> Result<Class, Refusal>
    ensures { Gives (λ class. class) result (linked_class (finder stations.now) item (class_text named.entry)) }
{
    let NamedClass {
        class,
        route,
        labels,
    } = named;
    let route = linked_steps(alloc, stations, &labels, route, item)?;
    Ok(Class {
        route: Sequence::new(route),
        ..class
    })
}

/// The classes one after another, with items from this one on.
pub(crate) fn linked_classes(
    alloc: Global,
    stations: &Directory,
    classes: Vec<NamedClass>,
    first: u32,
) -> Result<Vec<Class>, Refusal>
    requires { first + length classes.items ≤ MOST_OBJECTS + 1 }
    ensures { Gives (λ classes. classes.items) result (linked_named (finder stations.now) first classes.entry.items) }
{
    let mut linked = Vec::with_capacity(alloc, classes.len())?;
    for class in classes {
        let item = first + linked.len() as u32;
        linked.push(linked_class(alloc, stations, class, item)?)?;
    }
    Ok(linked)
}
