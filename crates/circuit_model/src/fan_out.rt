//! How many pins a gate feeds.
ghost use Rattle.std.specs.Prelude.{IfOk};
ghost use Rattle.circuit_model.specs.Parts.{AreLinked, FindsOverload};

use crate::gate::LogicGate;
use crate::limits::MOST_FED;
use crate::wiring::wire;
use model_core::OutOfMemory;
use std::alloc::Global;

/// The first gate that feeds more than 8 pins, if one does: no circuit has such a gate. The time grows with the number
/// of gates and pins. Fails only where no memory is left.
pub fn first_overloaded(alloc: Global, gates: &[LogicGate]) -> Result<Option<u32>, OutOfMemory>
    requires { AreLinked gates.now }
    ensures { IfOk result (λ found. FindsOverload gates.now found) }
{
    let feeds = wire(alloc, gates)?;
    for (number, pins) in feeds.iter().enumerate() {
        if pins.as_slice().len() > MOST_FED {
            return Ok(Some(number as u32));
        }
    }
    Ok(None)
}
