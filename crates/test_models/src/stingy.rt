//! A model that runs out of memory once.
ghost use Rattle.std.specs.Prelude.{◌≡◌};

use model_core::model::Model as SimulationModel;
use model_core::{Cells, Effect, Ending, Event, OutOfMemory, Start, Stream};
use std::alloc::Global;
use std::sync::atomic::{AtomicU64, Ordering};

/// Another model, which it is in all but one effect: that one it refuses for want of memory. The effects are counted in
/// the order in which any thread asks for them.
#[derive(Drop)]
pub struct Stingy<M: SimulationModel> {
    pub inner: M,
    // how many effects come before the refused one
    before: u64,
    asked: AtomicU64,
}

impl<M: SimulationModel> Stingy<M> {
    /// The model that answers so many effects, refuses the next one, and answers all others.
    pub fn new(inner: M, before: u64) -> Stingy<M>
        ensures { result.inner ≡ inner }
    {
        Stingy {
            inner,
            before,
            asked: AtomicU64::new(0),
        }
    }
}

impl<M: SimulationModel> SimulationModel for Stingy<M> {
    ghost meaning = { λ stingy. M.meaning stingy.inner };

    ghost laws = { λ stingy. M.laws stingy.inner };

    fn objects(&self) -> u32 {
        self.inner.objects()
    }

    fn starts(&self) -> u32 {
        self.inner.starts()
    }

    fn start(&self, i: u32) -> Start {
        self.inner.start(i)
    }

    fn first_cells(&self, alloc: Global, object: u32) -> Result<Cells, OutOfMemory> {
        self.inner.first_cells(alloc, object)
    }

    fn is_lawful(&self, object: u32, cells: &Cells) -> bool {
        self.inner.is_lawful(object, cells)
    }

    fn respond(
        &self,
        words: &mut Stream,
        object: u32,
        cells: &Cells,
        event: &Event,
        sheet: &mut Effect,
    ) -> Result<Ending, OutOfMemory> {
        if self.asked.fetch_add(1, Ordering::SeqCst) == self.before {
            return Err(OutOfMemory);
        }
        self.inner.respond(words, object, cells, event, sheet)
    }

    fn put_name(&self, alloc: Global, object: u32, into: &mut Vec<u8>) -> Result<(), OutOfMemory> {
        self.inner.put_name(alloc, object, into)
    }

    fn word(&self, number: u32) -> Option<&'static str> {
        self.inner.word(number)
    }

    fn fault(&self, code: u32) -> Option<&'static str> {
        self.inner.fault(code)
    }
}
