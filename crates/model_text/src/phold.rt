//! The body of a PHOLD model.
ghost use Rattle.std.specs.Prelude.{◌≡◌, ◌<◌, ◌^◌, IfOk, map};
ghost use Rattle.toml.specs.View.{view};
ghost use Rattle.phold_model.specs.Meaning.{phold_meaning};
ghost use Rattle.phold_model.specs.Parts.{phold_under};
ghost use Rattle.phold_model.specs.Views.{parts_of};
ghost use Rattle.text_fields.specs.Checks.{Gives};
ghost use Rattle.model_text.specs.Phold.{destination, phold, phold_keys};

use crate::additions::rank;
use crate::formats::Format;
use crate::starts::start_entries;
use model_core::{MOST_ENTRIES, MOST_OBJECTS};
use phold_model::Phold;
use std::alloc::Global;
use text_fields::{
    Cause, Refusal, number_or, only, optional_array, required, required_law, required_number,
    table_of, text,
};
use toml::Value;

/// Whether destinations are drawn evenly.
#[tactic(auto, unfolding(crate::specs::Phold::destination))]
fn destination(value: &Value, item: u32) -> Result<bool, Refusal>
    ensures { Gives (λ uniform. uniform) result (destination item (view value.now)) }
{
    let name = text(value, item)?;
    if name == "next" {
        return Ok(false);
    }
    if name == "uniform" {
        return Ok(true);
    }
    Err(Cause::BadValue.at(item))
}

/// The keys of the table `phold`.
fn phold_keys(format: Format) -> &'static [&'static str]
    ensures { map (λ name. name.now) result.now ≡ phold_keys format }
{
    match format {
        Format::One => &["objects", "delay", "to", "each", "start"],
        Format::Two => &["objects", "delay", "to", "each", "start", "rank"],
    }
}

/// The table `phold`, of a model whose own seed is this.
#[tactic(auto, unfolding(crate::specs::Phold::phold))]
pub(crate) fn phold(
    alloc: Global,
    value: &Value,
    format: Format,
    seed: u64,
) -> Result<Phold, Refusal>
    requires { seed < 2 ^ 63 }
    ensures read { Gives (λ model seed. phold_meaning (phold_under seed (parts_of model))) result (phold format (view value.now)) }
    ensures own { IfOk result (λ model. (parts_of model).seed ≡ seed) }
{
    let table = table_of(value, 0)?;
    let objects = required_number(table, "objects", 0, 0, u64::from(MOST_OBJECTS))? as u32;
    let delay = required_law(table, "delay", 0)?;
    let uniform = destination(required(table, "to", 0)?, 0)?;
    let each = number_or(table, "each", 0, 0, 0, 4)? as u32;
    let entries = optional_array(table, "start", 0, MOST_ENTRIES)?;
    let rank = rank(table, format, 0)?;
    only(table, phold_keys(format), 0)?;
    let start = start_entries(alloc, entries, format, objects)?;
    Ok(Phold::make(seed, objects, delay, uniform, each, start, rank)?)
}
