//! Which pins a gate feeds.
ghost use Rattle.std.specs.Prelude.{◌≡◌, ◌+◌, ◌<◌, [], ◌∷◌, ◌++◌, length, IfOk};
ghost use Rattle.circuit_model.specs.Gates.{gate_at};
ghost use Rattle.circuit_model.specs.Parts.{AreLinked};
ghost use Rattle.circuit_model.specs.Wiring.{Lists, pins_below, all_pins};

use crate::gate::LogicGate;
use model_core::OutOfMemory;
use std::alloc::Global;
use std::marker::Model;

/// A pin: whose it is, and its number there.
#[derive(Clone, Copy, Debug, PartialEq, Eq)]
pub struct Pin {
    pub gate: u32,
    pub place: u32,
}

/// Pins in order.
#[derive(Drop)]
pub struct Pins {
    pins: Vec<Pin>,
}

impl Model for Pins {
    ghost use Rattle.std.specs.Prelude.{List};
    ghost use Rattle.circuit_model.specs.declared.wiring.Pin.{Pin};

    ghost Value = { List Pin };

    ghost view = { λ pins. pins.pins.items };
}

impl Pins {
    /// No pin.
    fn none(alloc: Global) -> Pins
        ensures { result ≡ [] }
    {
        Pins {
            pins: Vec::new(alloc),
        }
    }

    /// One pin more, after the others.
    fn push(&mut self, pin: Pin) -> Result<(), OutOfMemory>
        ensures { IfOk result (λ _. self.new ≡ self.old ++ pin ∷ []) }
    {
        self.pins.push(pin)?;
        Ok(())
    }

    /// The pins, to read.
    pub fn as_slice(&self) -> &[Pin]
        ensures { result.now ≡ self.now }
    {
        self.pins.as_slice()
    }
}

/// A gate by its number.
pub fn gate_at(gates: &[LogicGate], number: u32) -> &LogicGate
    requires { number < length gates.now }
    ensures { result.now ≡ gate_at gates.now number }
{
    &gates[number as usize]
}

/// For each gate the pins that it feeds, in the order of gate and place. The time grows with the number of pins.
pub fn wire(alloc: Global, gates: &[LogicGate]) -> Result<Vec<Pins>, OutOfMemory>
    requires { AreLinked gates.now }
    ensures { IfOk result (λ feeds. Lists gates.now feeds.items (all_pins gates.now)) }
{
    let mut feeds = blank(alloc, gates)?;
    for number in 0..gates.len() as u32 {
        connect(gates, number, &mut feeds)?;
    }
    Ok(feeds)
}

/// No pin for each gate.
fn blank(alloc: Global, gates: &[LogicGate]) -> Result<Vec<Pins>, OutOfMemory>
    ensures { IfOk result (λ feeds. Lists gates.now feeds.items []) }
{
    let mut feeds = Vec::with_capacity(alloc, gates.len())?;
    for _ in gates {
        feeds.push(Pins::none(alloc))?;
    }
    Ok(feeds)
}

/// Lists the pins of one gate more.
fn connect(gates: &[LogicGate], number: u32, feeds: &mut Vec<Pins>) -> Result<(), OutOfMemory>
    requires linked { AreLinked gates.now }
    requires exists { number < length gates.now }
    requires lists { Lists gates.now feeds.old.items (pins_below gates.now number) }
    ensures { IfOk result (λ _. Lists gates.now feeds.new.items (pins_below gates.now (number + 1))) }
{
    let from = gate_at(gates, number).from.as_slice();
    for place in 0..from.len() {
        let pin = Pin {
            gate: number,
            place: place as u32,
        };
        feeds[from[place] as usize].push(pin)?;
    }
    Ok(())
}
