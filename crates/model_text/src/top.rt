//! The top table, and the whole text.
ghost use Rattle.std.specs.Prelude.{◌≡◌, ◌<◌, ◌^◌, IfOk, IfErr};
ghost use Rattle.toml.specs.View.{table_view};
ghost use Rattle.text_fields.specs.Checks.{Gives, Fails};
ghost use Rattle.text_fields.specs.Fields.{only};
ghost use Rattle.model_text.specs.Meanings.{family_read, meaning_of, meaning_under};
ghost use Rattle.model_text.specs.ModelTexts.{kind_of, top_keys, body, top, family_of, model_of, model_with};

use crate::circuits::circuit;
use crate::described::ReadModel;
use crate::formats::{Format, format_of};
use crate::model::AnyModel;
use crate::network::network;
use crate::phold::phold;
use event_key::LAST_TICK;
use model_core::model::Model as SimulationModel;
use model_core::{MOST_EVENTS, MOST_TEXT_BYTES};
use sim_spec::Terms;
use std::alloc::Global;
use std::mem;
use text_fields::{
    Cause, Refusal, number_or, only, required, required_number, required_text, terms_of, tree,
};
use toml::Table;

/// The kinds of models.
#[derive(Clone, Copy, Debug, PartialEq, Eq)]
pub(crate) enum ModelKind {
    Phold,
    Network,
    Circuit,
}

/// The kind of model with this name.
fn kind_of(format: Format, name: &str) -> Result<ModelKind, Refusal>
    ensures { Gives (λ kind. kind) result (kind_of format name.now) }
{
    match name {
        "phold" => Ok(ModelKind::Phold),
        "network" => Ok(ModelKind::Network),
        "circuit" if format.has_circuits() => Ok(ModelKind::Circuit),
        _ => Err(Cause::BadValue.at(0)),
    }
}

/// No key but the ones of the top table with a body of this kind.
fn only_known(table: &Table, kind: ModelKind) -> Result<(), Refusal>
    ensures { Gives (λ _. tt) result (only 0 (top_keys kind) (table_view table.now)) }
{
    match kind {
        ModelKind::Phold => only(
            table,
            &["format", "model", "end", "seed", "limit", "phold"],
            0,
        ),
        ModelKind::Network => only(
            table,
            &["format", "model", "end", "seed", "limit", "object", "job"],
            0,
        ),
        ModelKind::Circuit => only(
            table,
            &["format", "model", "end", "seed", "limit", "gate"],
            0,
        ),
    }
}

/// The body of a model of this kind, whose own seed is this.
fn body(
    alloc: Global,
    table: &Table,
    format: Format,
    kind: ModelKind,
    seed: u64,
) -> Result<AnyModel, Refusal>
    requires { seed < 2 ^ 63 }
    ensures read { Gives (λ model seed. meaning_under seed model) result (body format kind (table_view table.now)) }
    ensures own { IfOk result (λ model. meaning_under seed model ≡ meaning_of model) }
{
    match kind {
        ModelKind::Phold => {
            let body = required(table, "phold", 0)?;
            Ok(AnyModel::Phold(phold(alloc, body, format, seed)?))
        }
        ModelKind::Network => Ok(AnyModel::Network(network(alloc, table, format, seed)?)),
        ModelKind::Circuit => Ok(AnyModel::Circuit(circuit(alloc, table)?)),
    }
}

/// The top table, and then the body of the model.
#[tactic(auto, unfolding(crate::specs::ModelTexts::top))]
fn top(alloc: Global, table: &Table) -> Result<ReadModel, Refusal>
    ensures read { Gives family_read result (top (table_view table.now)) }
    ensures own { IfOk result (λ read. meaning_under read.seed read.model ≡ meaning_of read.model) }
    ensures seed { IfOk result (λ read. read.seed < 2 ^ 63) }
{
    let format = format_of(required(table, "format", 0)?)?;
    let kind = kind_of(format, required_text(table, "model", 0)?)?;
    let end = required_number(table, "end", 0, 0, LAST_TICK)?;
    let seed = number_or(table, "seed", 0, 0, 0, 9_223_372_036_854_775_807)?;
    let limit = number_or(table, "limit", 0, 10_000_000, 1, MOST_EVENTS)?;
    only_known(table, kind)?;
    let model = body(alloc, table, format, kind, seed)?;
    let terms = terms_of(end, limit);
    Ok(ReadModel { model, terms, seed })
}

/// What a text describes, or the first check that it fails: a model that can be had under any seed without reading the
/// text again. A refusal has the code of that check, from 1 to 7, and the item that it speaks of. Item 0 is the model as a
/// whole. The entries of `start`, or the objects and after them the jobs, are counted from 1. The memory of the text's tree
/// isn't given back.
#[tactic(auto, unfolding(crate::specs::ModelTexts::family_of))]
pub fn read_family(alloc: Global, bytes: &[u8]) -> Result<ReadModel, Refusal>
    ensures read { IfOk result (λ read. family_of bytes.now ≡ Ok (family_read read)) }
    ensures refused { IfErr result (λ refusal. Fails refusal (family_of bytes.now)) }
    ensures own { IfOk result (λ read. meaning_under read.seed read.model ≡ meaning_of read.model) }
    ensures seed { IfOk result (λ read. read.seed < 2 ^ 63) }
{
    if bytes.len() > MOST_TEXT_BYTES {
        return Err(Cause::TooLong.at(0));
    }
    let table = tree(alloc, bytes)?;
    let read = top(alloc, &table);
    // a program reads one model, and taking a large tree apart is a tenth of that work
    mem::forget(table);
    read
}

/// The model and the terms of a text, or the first check that it fails, as `read_family` tells it.
#[tactic(auto, unfolding(crate::specs::ModelTexts::model_of))]
pub fn read_model(alloc: Global, bytes: &[u8]) -> Result<(AnyModel, Terms), Refusal>
    ensures read { IfOk result (λ read. model_of bytes.now ≡ Ok (model_with (meaning_of read.0) read.1)) }
    ensures refused { IfErr result (λ refusal. Fails refusal (model_of bytes.now)) }
{
    let read = read_family(alloc, bytes)?;
    Ok((read.model, read.terms))
}
