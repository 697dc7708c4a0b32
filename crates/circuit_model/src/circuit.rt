//! The model of a circuit.
ghost use Rattle.std.specs.Prelude.{◌≡◌, ◌<◌, length, IfOk};
ghost use Rattle.circuit_model.specs.Parts.{IsCircuit};
ghost use Rattle.circuit_model.specs.PartsProps.{IsCircuit-prop};
ghost use Rattle.circuit_model.specs.Meaning.{circuit_meaning};
ghost use Rattle.circuit_model.specs.Starts.{starts_of};
ghost use Rattle.circuit_model.specs.Hot.{HaveHot};

use crate::gate::LogicGate;
use crate::hot::HotGates;
use crate::starts::starts_of;
use crate::wiring::{gate_at, wire};
use model_core::model::Model as SimulationModel;
use model_core::{
    Cells, Digits, Effect, Ending, Event, OutOfMemory, Start, fault_word, record_word,
    write_record_word,
};
use random_streams::Stream;
use std::alloc::Global;

/// Gates, each of which feeds pins of others.
#[derive(Drop)]
pub struct Circuit {
    gates: Vec<LogicGate>,
    hot: HotGates,
    starts: Vec<Start>,
    ghost in_range: { IsCircuit gates.items } by { IsCircuit-prop gates.items },
    ghost heated: { HaveHot gates.items hot.gates.items hot.fed.items (length gates.items) },
    ghost listed: { starts.items ≡ starts_of gates.items },
}

impl Circuit {
    /// The circuit of these gates, which are numbered from 0 on: at most 65,536, each with numbers within the bounds of
    /// its kind and with pins that are fed by gates that there are, with at most 300,000 flips in all, and each feeding
    /// at most 8 pins. The time grows with the number of gates, pins and flips. Fails only where no memory is left.
    pub fn make(alloc: Global, gates: Vec<LogicGate>) -> Result<Circuit, OutOfMemory>
        requires { IsCircuit gates.items }
        ensures { IfOk result (λ circuit. ⟦<Circuit as SimulationModel>⟧.meaning circuit ≡ circuit_meaning gates.items) }
    {
        let feeds = wire(alloc, &gates)?;
        let hot = HotGates::of(alloc, &gates, &feeds)?;
        let starts = starts_of(alloc, &gates)?;
        Ok(Circuit { gates, hot, starts })
    }
}

#[tactic(auto, unfolding(crate::specs::Meaning::circuit_meaning))]
impl SimulationModel for Circuit {
    ghost use Rattle.circuit_model.specs.Meaning.{circuit_meaning};
    ghost use Rattle.circuit_model.specs.ModelLaws.{circuit_laws};

    ghost meaning = { λ circuit. circuit_meaning circuit.gates.items };

    ghost laws = { λ circuit. circuit_laws circuit.gates.items circuit.in_range };

    fn objects(&self) -> u32 {
        self.gates.len() as u32
    }

    fn starts(&self) -> u32 {
        self.starts.len() as u32
    }

    fn start(&self, i: u32) -> Start {
        self.starts[i as usize]
    }

    fn first_cells(&self, alloc: Global, object: u32) -> Result<Cells, OutOfMemory> {
        let gate = gate_at(&self.gates, object);
        let words = vec![in alloc; 0; gate.words()]?;
        Cells::new(alloc, words, Vec::new(alloc))
    }

    fn is_lawful(&self, object: u32, cells: &Cells) -> bool {
        let gate = gate_at(&self.gates, object);
        gate.is_lawful(cells)
    }

    #[tactic(auto, unfolding(crate::specs::Meaning::circuit_meaning))]
    #[inline(always)]
    fn respond(
        &self,
        _words: &mut Stream,
        object: u32,
        cells: &Cells,
        event: &Event,
        sheet: &mut Effect,
    ) -> Result<Ending, OutOfMemory> {
        let gate = self.hot.at(object);
        gate.respond(self.hot.fed_by(gate), cells, event, sheet);
        Ok(Ending::Goes)
    }

    fn put_name(&self, _alloc: Global, object: u32, into: &mut Vec<u8>) -> Result<(), OutOfMemory> {
        let gate = gate_at(&self.gates, object);
        into.extend_from_slice(gate.name.bytes())?;
        Ok(())
    }

    #[inline(always)]
    fn write_name(
        &self,
        _digits: &Digits,
        object: u32,
        into: &mut [u8],
        at: usize,
    ) -> Option<usize> {
        gate_at(&self.gates, object).name.write(into, at)
    }

    fn word(&self, number: u32) -> Option<&'static str> {
        record_word(number)
    }

    fn fault(&self, code: u32) -> Option<&'static str> {
        fault_word(code)
    }

    #[inline(always)]
    fn write_word(&self, number: u32, into: &mut [u8], at: usize) -> Option<usize> {
        write_record_word(number, into, at)
    }
}
