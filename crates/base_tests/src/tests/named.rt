//! A model whose objects have names and do nothing.
ghost use Rattle.std.specs.Prelude.{codes, decimal, [], ◌++◌, true};
ghost use Rattle.model_core.specs.declared.effect.Outcome.TheVariants.{Fails};
ghost use Rattle.model_core.specs.Words.{record_word, fault_word};

use model_core::model::Model as SimulationModel;
use model_core::{
    Cells, Effect, Ending, Event, OutOfMemory, Start, Stream, fault_word, record_word,
};
use std::alloc::Global;

/// Nine objects, named by a `p` and their numbers.
#[derive(Drop)]
pub struct Named;

impl SimulationModel for Named {
    ghost use Rattle.std.proofs.Common.{arith};

    ghost meaning = { λ _. record {
      objects = 9;
      lawful = λ _ _. true;
      effect = λ _ _ _. Fails 2;
      first = λ _. record { words = []; lines = [] };
      starts = 1;
      start_at = λ _. record { time = 0; dest = 0; kind = 0; a = 0; b = 0; rank = 0 };
      label = λ object. codes "p" ++ decimal object;
      word = record_word;
      fault = fault_word;
    } };

    ghost laws = { λ _. Prim.grind arith };

    fn objects(&self) -> u32 {
        9
    }

    fn starts(&self) -> u32 {
        1
    }

    fn start(&self, _i: u32) -> Start {
        Start {
            time: 0,
            dest: 0,
            kind: 0,
            a: 0,
            b: 0,
            rank: 0,
        }
    }

    fn first_cells(&self, alloc: Global, _object: u32) -> Result<Cells, OutOfMemory> {
        Cells::of_words(alloc, &[])
    }

    fn is_lawful(&self, _object: u32, _cells: &Cells) -> bool {
        true
    }

    fn respond(
        &self,
        _words: &mut Stream,
        _object: u32,
        _cells: &Cells,
        _event: &Event,
        _sheet: &mut Effect,
    ) -> Result<Ending, OutOfMemory> {
        Ok(Ending::Fails(2))
    }

    fn put_name(&self, alloc: Global, object: u32, into: &mut Vec<u8>) -> Result<(), OutOfMemory> {
        let name = format!(in alloc; "p{object}")?;
        into.extend_from_slice(name.as_bytes())?;
        Ok(())
    }

    fn word(&self, number: u32) -> Option<&'static str> {
        record_word(number)
    }

    fn fault(&self, code: u32) -> Option<&'static str> {
        fault_word(code)
    }
}
