//! Where an event happens, and what objects of several kinds do there.
ghost use Rattle.std.specs.Prelude.{◌≡◌, ◌<◌, ◌≤◌, ◌^◌, IfOk, IsTrue, length};
ghost use Rattle.model_core.specs.Effects.{blank};
ghost use Rattle.model_core.specs.Places.{place_changes};
ghost use Rattle.random_streams.specs.Laws.{is_drawable};
ghost use Rattle.queue_models.specs.Sites.{job_to, told, is_plain_cells, plain_cells, place_of, drawn_at};

use model_core::{Cells, Effect, Event, Note, OutOfMemory, Part, Send, keep_place};
use random_streams::{Law, Stream, draw_by};
use std::alloc::Global;

/// The kind of an event at which a source makes a job.
pub const MAKE: u32 = 1;

/// The kind of an event at which a service is done.
pub const DONE: u32 = 2;

/// The kind of an event at which a job arrives.
pub const ARRIVE: u32 = 3;

/// Where an event happens: under which seed, at which object, and with which rank that object sends.
#[derive(Clone, Copy)]
pub struct Site {
    pub seed: u64,
    pub object: u32,
    pub rank: u32,
}

/// An event, where it happens, and the cells that it finds there.
#[derive(Clone, Copy)]
pub struct ObjectEvent<'a> {
    pub site: Site,
    pub cells: &'a Cells,
    pub event: &'a Event,
}

/// The cells at the start of an object that keeps nothing but its random place.
pub fn first_cells(alloc: Global) -> Result<Cells, OutOfMemory>
    ensures { IfOk result (λ cells. cells.contents ≡ plain_cells) }
{
    Cells::of_words(alloc, &[0])
}

/// Whether the cells are a random place alone.
pub fn is_lawful(cells: &Cells) -> bool
    ensures { result ≡ is_plain_cells cells.now.contents }
{
    cells.words() == 1 && cells.lines() == 0
}

impl Site {
    /// A job on its way to another object, where it arrives after a delay.
    pub fn job_to(&self, dest: u32, delay: u64, job: u64, birth: u64) -> Send
        ensures { result ≡ job_to self.now dest delay job birth }
    {
        Send {
            dest,
            delay,
            kind: ARRIVE,
            a: job,
            b: birth,
            rank: self.rank,
        }
    }
}

impl ObjectEvent<'_> {
    /// Draws by a law, before anything else is changed.
    pub fn draw(&self, words: &mut Stream, law: &Law, sheet: &mut Effect) -> u64
        requires law { IsTrue (is_drawable law.now) }
        requires cells { 0 < length self.now.cells.now.contents.words }
        requires blank { sheet.old ≡ blank }
        ensures value { result ≡ (drawn_at self.now.site self.now.cells.now.contents law.now).0 }
        ensures bounded { result ≤ 2 ^ 40 }
        ensures few { length sheet.new.changes ≤ 1 }
        ensures sheet { let at = self.now in sheet.new ≡ record blank {
          changes = place_changes (place_of at.cells.now.contents) (drawn_at at.site at.cells.now.contents law.now).1;
        } }
    {
        let place = self.cells.word(0);
        let (value, next_place) = draw_by(words, self.site.seed, self.site.object, place, law);
        keep_place(&mut sheet.changes, place, next_place);
        value
    }
}

/// What is told of an event.
pub fn told(word: u32, a: u64, b: u64) -> Note
    ensures { result ≡ told word a b }
{
    Note::of(Part { word, a, b })
}
