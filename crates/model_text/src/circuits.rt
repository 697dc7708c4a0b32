//! The body of a circuit.
ghost use Rattle.std.specs.Prelude.{◌≡◌, ℕ, ◌<◌, ◌≤◌, length, All, OnOk};
ghost use Rattle.toml.specs.View.{table_view};
ghost use Rattle.circuit_model.specs.Meaning.{circuit_meaning};
ghost use Rattle.circuit_model.specs.Parts.{AreLinked, FeedsFew};
ghost use Rattle.circuit_model.specs.Views.{gates_of};
ghost use Rattle.circuit_model.specs.declared.limits.TheConstants.{MOST_FLIPS};
ghost use Rattle.model_core.specs.declared.limits.TheConstants.{MOST_OBJECTS};
ghost use Rattle.text_fields.specs.Checks.{Gives};
ghost use Rattle.model_text.specs.Circuits.{linked_gate, linked_gates, fan_out, linked_circuit, circuit};
ghost use Rattle.text_fields.specs.Directories.{finder};
ghost use Rattle.model_text.specs.NamedGates.{IsNamedGate, flip_count, gate_place_in};

use crate::gates::gates;
use crate::named::NamedGate;
use circuit_model::{Circuit, LogicGate, first_overloaded};
use model_core::MOST_OBJECTS;
use std::alloc::Global;
use text_fields::{Cause, Directory, Refusal, links, optional_array};
use toml::Table;

/// A gate, with numbers of gates in place of their names.
#[tactic(auto, unfolding(crate::specs::Circuits::linked_gate))]
fn linked_gate(
    alloc: Global,
    directory: &Directory,
    gate: NamedGate,
    item: u32,
) -> Result<LogicGate, Refusal>
    ensures { Gives (λ gate. gate) result (linked_gate (finder directory.now) item gate) }
{
    let from = links(alloc, directory, gate.from.as_slice(), item)?;
    Ok(LogicGate {
        name: gate.name,
        kind: gate.kind,
        delay: gate.delay,
        from,
        flips: gate.flips,
        probe: gate.probe,
    })
}

/// The gates one after another, the first with item 1.
fn linked_gates(
    alloc: Global,
    directory: &Directory,
    gates: Vec<NamedGate>,
) -> Result<Vec<LogicGate>, Refusal>
    requires { length gates.items ≤ MOST_OBJECTS }
    ensures { Gives (λ gates. gates.items) result (linked_gates (finder directory.now) gates.items) }
{
    let mut linked = Vec::with_capacity(alloc, gates.len())?;
    for gate in gates {
        let item = linked.len() as u32 + 1;
        linked.push(linked_gate(alloc, directory, gate, item)?)?;
    }
    Ok(linked)
}

/// Refuses the first gate that feeds too many pins.
fn fan_out(alloc: Global, gates: &[LogicGate]) -> Result<(), Refusal>
    requires { AreLinked gates.now }
    ensures read { Gives (λ _. tt) result (fan_out gates.now) }
    ensures few { OnOk result ((number : ℕ) → number < length gates.now → FeedsFew gates.now number) }
{
    match first_overloaded(alloc, gates)? {
        Some(number) => Err(Cause::Limit.at(number + 1)),
        None => Ok(()),
    }
}

/// Pass two, over the gates of pass one.
#[tactic(auto, unfolding(crate::specs::Circuits::linked_circuit))]
fn linked_circuit(
    alloc: Global,
    named: Vec<NamedGate>,
    directory: &Directory,
) -> Result<Circuit, Refusal>
    requires few_gates { length named.items ≤ MOST_OBJECTS }
    requires few_flips { flip_count named.items ≤ MOST_FLIPS }
    requires found { finder directory.now ≡ gate_place_in named.items }
    requires in_range { All IsNamedGate named.items }
    ensures { Gives (λ circuit. circuit_meaning (gates_of circuit)) result (linked_circuit named.items) }
{
    let gates = linked_gates(alloc, directory, named)?;
    fan_out(alloc, &gates)?;
    Ok(Circuit::make(alloc, gates)?)
}

/// The array `gate`.
#[tactic(auto, unfolding(crate::specs::Circuits::circuit))]
pub(crate) fn circuit(alloc: Global, table: &Table) -> Result<Circuit, Refusal>
    ensures { Gives (λ circuit. circuit_meaning (gates_of circuit)) result (circuit (table_view table.now)) }
{
    let tables = optional_array(table, "gate", 0, MOST_OBJECTS as usize)?;
    let (named, directory) = gates(alloc, tables)?;
    linked_circuit(alloc, named, &directory)
}
