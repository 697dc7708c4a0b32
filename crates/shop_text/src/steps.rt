//! The steps of a route, each form with its fields.
ghost use Rattle.std.specs.Prelude.{◌≡◌, Option, IfOk, IsTrue, map};
ghost use Rattle.std.specs.Option.{ForSome};
ghost use Rattle.toml.specs.View.{view, table_view};
ghost use Rattle.random_streams.specs.declared.delay_law.DelayLaw.{DelayLaw};
ghost use Rattle.random_streams.specs.Delays.{is_delay_law};
ghost use Rattle.text_fields.specs.Checks.{Gives};
ghost use Rattle.shop_text.specs.declared.named.NamedStep.TheVariants.{Visit};
ghost use Rattle.shop_text.specs.Ranges.{IsNamedStep};
ghost use Rattle.shop_text.specs.StepTexts.{visit_names, visit, service, hold, free, delay, go, step_form};

use crate::laws::{optional_law, required_law};
use crate::named::{NamedStep, NamedVisit, VisitNames};
use model_core::Name;
use random_streams::DelayLaw;
use std::alloc::Global;
use text_fields::{
    Cause, Refusal, field, only, optional_weights, required, required_text, text_or, ways,
};
use toml::Table;

/// Where a job goes that isn't served, if its class doesn't say it: it is given up.
const UNSERVED: &str = "drop";

/// The names of a visit of this station.
#[tactic(auto, unfolding(crate::specs::StepTexts::visit_names))]
fn visit_names(
    alloc: Global,
    station: &str,
    table: &Table,
    item: u32,
) -> Result<VisitNames, Refusal>
    ensures { Gives (λ names. names) result (visit_names item station.now (table_view table.now)) }
{
    let away = text_or(table, "away", item, UNSERVED)?;
    let full = text_or(table, "full", item, UNSERVED)?;
    let station = Name::of(alloc, station.as_bytes())?;
    let away = Name::of(alloc, away.as_bytes())?;
    let full = Name::of(alloc, full.as_bytes())?;
    Ok(VisitNames {
        station,
        away,
        full,
    })
}

/// How long a job waits, and where it goes if it isn't served. The step may have no other keys than these.
#[tactic(auto, unfolding(crate::specs::StepTexts::visit))]
fn wait(
    alloc: Global,
    station: &str,
    table: &Table,
    keys: &[&str],
    item: u32,
) -> Result<(Option<DelayLaw>, VisitNames), Refusal>
    ensures read { (service : Option DelayLaw)
        → Gives (λ wait. Visit (record { names = wait.1; service = service; patience = wait.0 })) result
        (visit item station.now service (map (λ key. key.now) keys.now) (table_view table.now)) }
    ensures in_range { IfOk result (λ wait. ForSome wait.0 (λ law. IsTrue (is_delay_law law))) }
{
    let patience = optional_law(alloc, table, "patience", item)?;
    let names = visit_names(alloc, station, table, item)?;
    only(table, keys, item)?;
    Ok((patience, names))
}

/// A visit of this station, where a job is served so. The step may have no other keys than these.
fn visit(
    alloc: Global,
    station: &str,
    service: Option<DelayLaw>,
    table: &Table,
    keys: &[&str],
    item: u32,
) -> Result<NamedStep, Refusal>
    requires { ForSome service (λ law. IsTrue (is_delay_law law)) }
    ensures read { Gives (λ step. step) result (visit item station.now service (map (λ key. key.now) keys.now) (table_view table.now)) }
    ensures in_range { IfOk result IsNamedStep }
{
    let (patience, names) = wait(alloc, station, table, keys, item)?;
    Ok(NamedStep::Visit(NamedVisit {
        names,
        service,
        patience,
    }))
}

/// A server serves the job.
#[tactic(auto, unfolding(crate::specs::StepTexts::service))]
fn service(alloc: Global, table: &Table, item: u32) -> Result<NamedStep, Refusal>
    ensures read { Gives (λ step. step) result (service item (table_view table.now)) }
    ensures in_range { IfOk result IsNamedStep }
{
    let station = required_text(table, "at", item)?;
    let law = required_law(alloc, table, "service", item)?;
    let keys = &["label", "at", "service", "patience", "away", "full"];
    visit(alloc, station, Some(law), table, keys, item)
}

/// The job takes a server for itself.
#[tactic(auto, unfolding(crate::specs::StepTexts::hold))]
fn hold(alloc: Global, table: &Table, item: u32) -> Result<NamedStep, Refusal>
    ensures read { Gives (λ step. step) result (hold item (table_view table.now)) }
    ensures in_range { IfOk result IsNamedStep }
{
    let station = required_text(table, "hold", item)?;
    let keys = &["label", "hold", "patience", "away", "full"];
    visit(alloc, station, None, table, keys, item)
}

/// The job gives a server back.
#[tactic(auto, unfolding(crate::specs::StepTexts::free))]
fn free(alloc: Global, table: &Table, item: u32) -> Result<NamedStep, Refusal>
    ensures read { Gives (λ step. step) result (free item (table_view table.now)) }
    ensures in_range { IfOk result IsNamedStep }
{
    let station = required_text(table, "free", item)?;
    only(table, &["label", "free"], item)?;
    let station = Name::of(alloc, station.as_bytes())?;
    Ok(NamedStep::Free { station })
}

/// The job stays with its class for a while.
#[tactic(auto, unfolding(crate::specs::StepTexts::delay))]
fn delay(alloc: Global, table: &Table, item: u32) -> Result<NamedStep, Refusal>
    ensures read { Gives (λ step. step) result (delay item (table_view table.now)) }
    ensures in_range { IfOk result IsNamedStep }
{
    let law = required_law(alloc, table, "delay", item)?;
    only(table, &["label", "delay"], item)?;
    Ok(NamedStep::Delay { law })
}

/// The job goes to one of several steps.
#[tactic(auto, unfolding(crate::specs::StepTexts::go))]
fn go(alloc: Global, table: &Table, item: u32) -> Result<NamedStep, Refusal>
    ensures read { Gives (λ step. step) result (go item (table_view table.now)) }
    ensures in_range { IfOk result IsNamedStep }
{
    let steps = ways(alloc, required(table, "go", item)?, item)?;
    let weights = optional_weights(alloc, table, "weights", item, steps.as_slice().len())?;
    only(table, &["label", "go", "weights"], item)?;
    Ok(NamedStep::Go { steps, weights })
}

/// What the job does, by the first key of a form that is there.
pub(crate) fn step_form(alloc: Global, table: &Table, item: u32) -> Result<NamedStep, Refusal>
    ensures read { Gives (λ step. step) result (step_form item (table_view table.now)) }
    ensures in_range { IfOk result IsNamedStep }
{
    if field(table, "at").is_some() {
        return service(alloc, table, item);
    }
    if field(table, "hold").is_some() {
        return hold(alloc, table, item);
    }
    if field(table, "free").is_some() {
        return free(alloc, table, item);
    }
    if field(table, "delay").is_some() {
        return delay(alloc, table, item);
    }
    if field(table, "go").is_some() {
        return go(alloc, table, item);
    }
    Err(Cause::Missing.at(item))
}
