//! What events need of gates. The gates themselves, with their names and the times at which they turn, are many times as
//! large, so that those of a large circuit don't stay in the caches.
ghost use Rattle.std.specs.Prelude.{◌≡◌, ◌+◌, ◌<◌, ◌≤◌, ◌^◌, [], ◌∷◌, ◌++◌, length, OnOk, IfOk};
ghost use Rattle.circuit_model.specs.Gates.{HasPins};
ghost use Rattle.circuit_model.specs.Hot.{hot_of, pins_fed, HaveHot, hot_at};
ghost use Rattle.circuit_model.specs.Parts.{IsCircuit};
ghost use Rattle.circuit_model.specs.Wiring.{Lists, all_pins};

use crate::gate::{LogicGate, LogicKind};
use crate::wiring::{Pin, Pins};
use model_core::OutOfMemory;
use std::alloc::Global;

/// What an event needs of one gate.
#[derive(Clone, Copy)]
pub struct HotGate {
    /// How long its output takes to the pins that it feeds, in ticks. That of an input takes no time, whatever stands here.
    pub delay: u64,
    /// Where the pins that it feeds begin in the list of all, and how many they are.
    pub first: u32,
    pub fed: u8,
    pub kind: LogicKind,
    /// How many pins it has.
    pub pins: u8,
    /// Whether its changes are told.
    pub probe: bool,
}

/// The same of all gates, and the pins that they feed, gate by gate.
#[derive(Drop)]
pub struct HotGates {
    pub gates: Vec<HotGate>,
    pub fed: Vec<Pin>,
}

impl HotGates {
    /// What events need of these gates, each of which feeds the pins of its list.
    pub fn of(alloc: Global, gates: &[LogicGate], feeds: &[Pins]) -> Result<HotGates, OutOfMemory>
        requires circuit { IsCircuit gates.now }
        requires lists { Lists gates.now feeds.now (all_pins gates.now) }
        ensures { IfOk result (λ hot. HaveHot gates.now hot.gates.items hot.fed.items (length gates.now)) }
    {
        let mut hot = HotGates {
            gates: Vec::with_capacity(alloc, gates.len())?,
            fed: Vec::new(alloc),
        };
        for number in 0..gates.len() {
            hot.push(&gates[number], feeds[number].as_slice())?;
        }
        Ok(hot)
    }

    /// One gate more, with the pins that it feeds.
    fn push(&mut self, gate: &LogicGate, pins: &[Pin]) -> Result<(), OutOfMemory>
        requires few { length pins.now ≤ 8 }
        requires pins { HasPins gate.now.kind (length gate.now.from) }
        requires room { length self.old.fed.items < 2 ^ 32 }
        ensures fed { OnOk result (self.new.fed.items ≡ self.old.fed.items ++ pins.now) }
        ensures gates { OnOk result (self.new.gates.items ≡ self.old.gates.items ++ hot_of gate.now (length self.old.fed.items) (length pins.now) ∷ []) }
    {
        let first = self.fed.len() as u32;
        self.fed.extend_from_slice(pins)?;
        self.gates.push(HotGate {
            delay: gate.delay,
            first,
            fed: pins.len() as u8,
            kind: gate.kind,
            pins: gate.pins() as u8,
            probe: gate.probe,
        })?;
        Ok(())
    }

    /// That of one gate.
    #[inline(always)]
    pub fn at(&self, number: u32) -> &HotGate
        requires { number < length self.now.gates.items }
        ensures { result.now ≡ hot_at self.now.gates.items number }
    {
        &self.gates[number as usize]
    }

    /// The pins that a gate feeds.
    #[inline(always)]
    pub fn fed_by(&self, gate: &HotGate) -> &[Pin]
        requires { gate.now.first + gate.now.fed ≤ length self.now.fed.items }
        ensures { result.now ≡ pins_fed self.now.fed.items gate.now }
    {
        let first = gate.first as usize;
        &self.fed[first..first + usize::from(gate.fed)]
    }
}
