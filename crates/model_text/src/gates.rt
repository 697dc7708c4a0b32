//! Pass one over a circuit: the gates with their fields.
ghost use Rattle.std.specs.Prelude.{◌≡◌, ◌+◌, ◌<◌, ◌≤◌, length, All, IfOk, None};
ghost use Rattle.toml.specs.View.{view, items_view};
ghost use Rattle.circuit_model.specs.declared.limits.TheConstants.{MOST_FLIPS};
ghost use Rattle.model_core.specs.declared.limits.TheConstants.{MOST_OBJECTS};
ghost use Rattle.text_fields.specs.Checks.{Gives};
ghost use Rattle.model_text.specs.Circuits.{gate, gates};
ghost use Rattle.text_fields.specs.Directories.{finder};
ghost use Rattle.text_fields.specs.Names.{TakesIn};
ghost use Rattle.model_text.specs.NamedGates.{IsNamedGate, flip_count, gate_place, gate_place_in};

use crate::gate_fields::{fed_gate, input, required_kind};
use crate::named::NamedGate;
use model_core::Name;
use std::alloc::Global;
use text_fields::{Directory, Place, Refusal, required_name, table_of};
use toml::Value;

/// The gate with this number, counted from 0, which may have none of the names in the directory and is taken in there, where
/// the gates before it turn so often.
#[tactic(auto, unfolding(crate::specs::Circuits::gate))]
fn gate<'a>(
    alloc: Global,
    value: &'a Value,
    directory: &mut Directory<'a>,
    flips_before: usize,
    number: u32,
) -> Result<NamedGate, Refusal>
    requires flips { flips_before ≤ MOST_FLIPS }
    requires number { number < MOST_OBJECTS }
    ensures read { Gives (λ gate. gate) result (gate (finder directory.old) flips_before (number + 1) (view value.now)) }
    ensures in_range { IfOk result IsNamedGate }
    ensures few { IfOk result (λ gate. flips_before + length gate.flips ≤ MOST_FLIPS) }
    ensures new { IfOk result (λ gate. finder directory.old gate.name ≡ None) }
    ensures taken_in { IfOk result (λ gate. TakesIn (finder directory.old) (finder directory.new) gate.name (gate_place number gate)) }
{
    let item = number + 1;
    let table = table_of(value, item)?;
    let place = Place {
        number,
        takes_links: true,
    };
    let name = required_name(table, directory, place, item)?;
    let kind = required_kind(table, item)?;
    let name = Name::of(alloc, name.as_bytes())?;
    if kind.is_input() {
        input(alloc, table, name, flips_before, item)
    } else {
        fed_gate(alloc, table, name, kind, item)
    }
}

/// The gates one after another, the first with item 1, and a directory of them.
pub(crate) fn gates<'a>(
    alloc: Global,
    values: &'a [Value],
) -> Result<(Vec<NamedGate>, Directory<'a>), Refusal>
    requires { length values.now ≤ MOST_OBJECTS }
    ensures read { Gives (λ read. read.0.items) result (gates (items_view values.now)) }
    ensures found { IfOk result (λ read. finder read.1 ≡ gate_place_in read.0.items) }
    ensures count { IfOk result (λ read. length read.0.items ≡ length values.now) }
    ensures in_range { IfOk result (λ read. All IsNamedGate read.0.items) }
    ensures few_flips { IfOk result (λ read. flip_count read.0.items ≤ MOST_FLIPS) }
{
    let mut gates = Vec::new(alloc);
    let mut directory = Directory::new(alloc);
    let mut flips = 0;
    for value in values {
        let number = gates.len() as u32;
        let gate = gate(alloc, value, &mut directory, flips, number)?;
        flips += gate.flips.as_slice().len();
        gates.push(gate)?;
    }
    Ok((gates, directory))
}
