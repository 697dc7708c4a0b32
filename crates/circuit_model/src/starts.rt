//! The events with which a circuit begins.
ghost use Rattle.std.specs.Prelude.{◌≡◌, ◌+◌, ◌<◌, ◌≤◌, ◌++◌, length, IfOk};
ghost use Rattle.model_core.specs.declared.limits.TheConstants.{MOST_OBJECTS};
ghost use Rattle.circuit_model.specs.Gates.{gate_at};
ghost use Rattle.circuit_model.specs.Starts.{compute_start, flip_start, computes_below, flips_of, starts_of};

use crate::gate::LogicGate;
use crate::wiring::gate_at;
use model_core::{OutOfMemory, Start};
use std::alloc::Global;

/// The kind of an event that brings a level to a pin.
pub const LEVEL: u32 = 5;

/// The kind of an event at which a gate computes its output.
pub const COMPUTE: u32 = 6;

/// The kind of an event at which an input turns.
pub const TURN: u32 = 7;

/// A gate computes its output for the first time.
fn compute_start(number: u32) -> Start
    ensures { result ≡ compute_start number }
{
    Start {
        time: 0,
        dest: number,
        kind: COMPUTE,
        a: 0,
        b: 0,
        rank: 0,
    }
}

/// An input turns.
fn flip_start(number: u32, time: u64) -> Start
    ensures { result ≡ flip_start number time }
{
    Start {
        time,
        dest: number,
        kind: TURN,
        a: 0,
        b: 0,
        rank: 0,
    }
}

/// The initial events: first every gate that is no input computes, and then every input turns at its flips.
pub fn starts_of(alloc: Global, gates: &[LogicGate]) -> Result<Vec<Start>, OutOfMemory>
    requires { length gates.now ≤ MOST_OBJECTS }
    ensures { IfOk result (λ starts. starts.items ≡ starts_of gates.now) }
{
    let mut starts = computes(alloc, gates)?;
    for number in 0..gates.len() as u32 {
        add_flips(gates, number, &mut starts)?;
    }
    Ok(starts)
}

/// The events at which gates compute.
fn computes(alloc: Global, gates: &[LogicGate]) -> Result<Vec<Start>, OutOfMemory>
    requires { length gates.now ≤ MOST_OBJECTS }
    ensures { IfOk result (λ starts. starts.items ≡ computes_below gates.now (length gates.now)) }
{
    let mut starts = Vec::new(alloc);
    for number in 0..gates.len() as u32 {
        let gate = gate_at(gates, number);
        if !gate.kind.is_input() {
            starts.push(compute_start(number))?;
        }
    }
    Ok(starts)
}

/// Adds the events at which a gate turns.
fn add_flips(gates: &[LogicGate], number: u32, starts: &mut Vec<Start>) -> Result<(), OutOfMemory>
    requires { number < length gates.now }
    ensures { IfOk result (λ _. starts.new.items ≡ starts.old.items ++ flips_of gates.now number) }
{
    let gate = gate_at(gates, number);
    for time in gate.flips.as_slice() {
        starts.push(flip_start(number, *time))?;
    }
    Ok(())
}
