//! The models that a text can describe.
use circuit_model::Circuit;
use delta_exchange::{Cells, OutOfMemory};
use model_core::model::Model as SimulationModel;
use model_core::{Digits, Effect, Ending, Event, Start};
use phold_model::Phold;
use queue_models::Network;
use random_streams::Stream;
use std::alloc::Global;

/// A model of any kind that a text can describe.
#[derive(Drop)]
pub enum AnyModel {
    Phold(Phold),
    Network(Network),
    Circuit(Circuit),
}

impl AnyModel {
    ghost use Rattle.std.specs.Prelude.{◌≡◌, ◌<◌, ◌^◌, IfOk, IsTrue};
    ghost use Rattle.event_key.specs.Stamps.{time_part};
    ghost use Rattle.model_core.specs.Effects.{outcome_by};
    ghost use Rattle.model_text.specs.Meanings.{meaning_of, meaning_under};

    /// What an event does under a seed, below 2^63, in place of the model's own, as `respond` says it.
    #[tactic(auto, unfolding(phold_model::specs::Meaning::phold_meaning))]
    pub(crate) fn respond_under(
        &self,
        seed: u64,
        words: &mut Stream,
        object: u32,
        cells: &Cells,
        event: &Event,
        sheet: &mut Effect,
    ) -> Result<Ending, OutOfMemory>
        requires seed { seed < 2 ^ 63 }
        requires object { object < (meaning_of self.now).objects }
        requires lawful { IsTrue ((meaning_of self.now).lawful object cells.now.contents) }
        requires time { time_part event.now.key.stamp < 2 ^ 46 }
        ensures { IfOk result (λ ending. outcome_by ending sheet.new
            ≡ (meaning_under seed self.now).effect object cells.now.contents event.now) }
    {
        match self {
            AnyModel::Phold(phold) => phold.respond_under(seed, words, object, cells, sheet),
            AnyModel::Network(network) => {
                network.respond_under(seed, words, object, cells, event, sheet)
            }
            AnyModel::Circuit(circuit) => circuit.respond(words, object, cells, event, sheet),
        }
    }
}

impl SimulationModel for AnyModel {
    ghost use Rattle.model_text.specs.Meanings.{meaning_of, meaning_laws};

    ghost meaning = { λ model. meaning_of model };

    ghost laws = { λ model. meaning_laws model };

    fn objects(&self) -> u32 {
        match self {
            AnyModel::Phold(phold) => phold.objects(),
            AnyModel::Network(network) => network.objects(),
            AnyModel::Circuit(circuit) => circuit.objects(),
        }
    }

    fn starts(&self) -> u32 {
        match self {
            AnyModel::Phold(phold) => phold.starts(),
            AnyModel::Network(network) => network.starts(),
            AnyModel::Circuit(circuit) => circuit.starts(),
        }
    }

    fn start(&self, i: u32) -> Start {
        match self {
            AnyModel::Phold(phold) => phold.start(i),
            AnyModel::Network(network) => network.start(i),
            AnyModel::Circuit(circuit) => circuit.start(i),
        }
    }

    fn first_cells(&self, alloc: Global, object: u32) -> Result<Cells, OutOfMemory> {
        match self {
            AnyModel::Phold(phold) => phold.first_cells(alloc, object),
            AnyModel::Network(network) => network.first_cells(alloc, object),
            AnyModel::Circuit(circuit) => circuit.first_cells(alloc, object),
        }
    }

    fn is_lawful(&self, object: u32, cells: &Cells) -> bool {
        match self {
            AnyModel::Phold(phold) => phold.is_lawful(object, cells),
            AnyModel::Network(network) => network.is_lawful(object, cells),
            AnyModel::Circuit(circuit) => circuit.is_lawful(object, cells),
        }
    }

    fn respond(
        &self,
        words: &mut Stream,
        object: u32,
        cells: &Cells,
        event: &Event,
        sheet: &mut Effect,
    ) -> Result<Ending, OutOfMemory> {
        match self {
            AnyModel::Phold(phold) => phold.respond(words, object, cells, event, sheet),
            AnyModel::Network(network) => network.respond(words, object, cells, event, sheet),
            AnyModel::Circuit(circuit) => circuit.respond(words, object, cells, event, sheet),
        }
    }

    fn put_name(&self, alloc: Global, object: u32, into: &mut Vec<u8>) -> Result<(), OutOfMemory> {
        match self {
            AnyModel::Phold(phold) => phold.put_name(alloc, object, into),
            AnyModel::Network(network) => network.put_name(alloc, object, into),
            AnyModel::Circuit(circuit) => circuit.put_name(alloc, object, into),
        }
    }

    #[inline(always)]
    fn write_name(
        &self,
        digits: &Digits,
        object: u32,
        into: &mut [u8],
        at: usize,
    ) -> Option<usize> {
        match self {
            AnyModel::Phold(phold) => phold.write_name(digits, object, into, at),
            AnyModel::Network(network) => network.write_name(digits, object, into, at),
            AnyModel::Circuit(circuit) => circuit.write_name(digits, object, into, at),
        }
    }

    fn word(&self, number: u32) -> Option<&'static str> {
        match self {
            AnyModel::Phold(phold) => phold.word(number),
            AnyModel::Network(network) => network.word(number),
            AnyModel::Circuit(circuit) => circuit.word(number),
        }
    }

    fn fault(&self, code: u32) -> Option<&'static str> {
        match self {
            AnyModel::Phold(phold) => phold.fault(code),
            AnyModel::Network(network) => network.fault(code),
            AnyModel::Circuit(circuit) => circuit.fault(code),
        }
    }

    #[inline(always)]
    fn write_word(&self, number: u32, into: &mut [u8], at: usize) -> Option<usize> {
        match self {
            AnyModel::Phold(phold) => phold.write_word(number, into, at),
            AnyModel::Network(network) => network.write_word(number, into, at),
            AnyModel::Circuit(circuit) => circuit.write_word(number, into, at),
        }
    }
}
