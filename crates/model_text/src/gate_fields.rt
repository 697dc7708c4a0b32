//! The kinds of gates, each with its fields.
ghost use Rattle.std.specs.Prelude.{◌≡◌, ◌+◌, ◌<◌, ◌≤◌, ◌^◌, [], false, length, map, All, IfOk};
ghost use Rattle.toml.specs.View.{view, items_view, table_view};
ghost use Rattle.circuit_model.specs.Gates.{HasPins, is_input};
ghost use Rattle.circuit_model.specs.declared.limits.TheConstants.{MOST_FLIPS};
ghost use Rattle.text_fields.specs.Checks.{Gives};
ghost use Rattle.model_text.specs.GateFields.{logic_kind, required_kind, takes, flips, feeders, probe, input, fed_gate};
ghost use Rattle.model_text.specs.NamedGates.{IsNamedGate};

use crate::named::NamedGate;
use circuit_model::{LogicKind, MOST_DELAY, MOST_FLIPS};
use event_key::LAST_TICK;
use model_core::{Name, Sequence};
use std::alloc::Global;
use text_fields::{
    Cause, Refusal, entries_of, item_count, names_of, number_or, numbers_of, only, optional_array,
    required, required_text, truth_or,
};
use toml::{Table, Value};

/// The kind with this word.
fn logic_kind(word: &str, item: u32) -> Result<LogicKind, Refusal>
    ensures { Gives (λ kind. kind) result (logic_kind item word.now) }
{
    match word {
        "input" => Ok(LogicKind::Input),
        "buf" => Ok(LogicKind::Buf),
        "not" => Ok(LogicKind::Not),
        "and" => Ok(LogicKind::And),
        "or" => Ok(LogicKind::Or),
        "xor" => Ok(LogicKind::Xor),
        "nand" => Ok(LogicKind::Nand),
        "nor" => Ok(LogicKind::Nor),
        "dff" => Ok(LogicKind::Dff),
        _ => Err(Cause::BadValue.at(item)),
    }
}

/// The kind that a table gives.
pub(crate) fn required_kind(table: &Table, item: u32) -> Result<LogicKind, Refusal>
    ensures { Gives (λ kind. kind) result (required_kind item (table_view table.now)) }
{
    logic_kind(required_text(table, "kind", item)?, item)
}

/// When an input turns, where those before it turn so often.
#[tactic(auto, unfolding(crate::specs::GateFields::flips))]
fn flips(alloc: Global, table: &Table, before: usize, item: u32) -> Result<Sequence<u64>, Refusal>
    requires { before ≤ MOST_FLIPS }
    ensures read { Gives (λ flips. flips) result (flips before item (table_view table.now)) }
    ensures few { IfOk result (λ flips. before + length flips ≤ MOST_FLIPS) }
    ensures in_time { IfOk result (λ flips. All (λ time. time < 2 ^ 46) flips) }
{
    let values = optional_array(table, "flips", item, MOST_FLIPS - before)?;
    Ok(Sequence::new(numbers_of(alloc, values, item, LAST_TICK)?))
}

/// Whether a gate of this kind may have so many pins.
fn takes(kind: LogicKind, pins: usize) -> bool
    ensures { result ≡ takes kind pins }
{
    kind.takes(pins)
}

/// The names of the gates that feed the pins of one of this kind.
#[tactic(auto, unfolding(crate::specs::GateFields::feeders))]
fn feeders(
    alloc: Global,
    value: &Value,
    kind: LogicKind,
    item: u32,
) -> Result<Sequence<Name>, Refusal>
    ensures read { Gives (λ names. names) result (feeders kind item (view value.now)) }
    ensures fit { IfOk result (λ names. HasPins kind (length names)) }
{
    let values = entries_of(value, item)?;
    if !takes(kind, item_count(values)) {
        return Err(Cause::BadValue.at(item));
    }
    Ok(Sequence::new(names_of(alloc, values, item)?))
}

/// Whether the changes of a gate are told. Its table may have no other keys than these.
fn probe(table: &Table, keys: &[&str], item: u32) -> Result<bool, Refusal>
    ensures { Gives (λ probe. probe) result (probe item (map (λ key. key.now) keys.now) (table_view table.now)) }
{
    let probe = truth_or(table, "probe", item, true)?;
    only(table, keys, item)?;
    Ok(probe)
}

/// An input, where those before it turn so often.
#[tactic(auto, unfolding(crate::specs::GateFields::input))]
pub(crate) fn input(
    alloc: Global,
    table: &Table,
    name: Name,
    before: usize,
    item: u32,
) -> Result<NamedGate, Refusal>
    requires { before ≤ MOST_FLIPS }
    ensures read { Gives (λ gate. gate) result (input before item name (table_view table.now)) }
    ensures in_range { IfOk result IsNamedGate }
    ensures name { IfOk result (λ gate. gate.name ≡ name) }
    ensures few { IfOk result (λ gate. before + length gate.flips ≤ MOST_FLIPS) }
{
    let flips = flips(alloc, table, before, item)?;
    let probe = probe(table, &["name", "kind", "flips", "probe"], item)?;
    Ok(NamedGate {
        name,
        kind: LogicKind::Input,
        delay: 0,
        from: Sequence::new(Vec::new(alloc)),
        flips,
        probe,
    })
}

/// A gate whose pins are fed.
#[tactic(auto, unfolding(crate::specs::GateFields::fed_gate))]
pub(crate) fn fed_gate(
    alloc: Global,
    table: &Table,
    name: Name,
    kind: LogicKind,
    item: u32,
) -> Result<NamedGate, Refusal>
    requires { is_input kind ≡ false }
    ensures read { Gives (λ gate. gate) result (fed_gate kind item name (table_view table.now)) }
    ensures in_range { IfOk result IsNamedGate }
    ensures name { IfOk result (λ gate. gate.name ≡ name) }
    ensures no_flips { IfOk result (λ gate. gate.flips ≡ []) }
{
    let delay = number_or(table, "delay", item, 1, 0, MOST_DELAY)?;
    let from = feeders(alloc, required(table, "from", item)?, kind, item)?;
    let probe = probe(table, &["name", "kind", "delay", "from", "probe"], item)?;
    Ok(NamedGate {
        name,
        kind,
        delay,
        from,
        flips: Sequence::new(Vec::new(alloc)),
        probe,
    })
}
