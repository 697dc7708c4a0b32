//! Where and when an event happens.
ghost use Rattle.std.specs.Prelude.{◌≡◌, ◌<◌, ◌≤◌, ◌^◌, [], IsTrue, length};
ghost use Rattle.model_core.specs.Effects.{blank};
ghost use Rattle.model_core.specs.Places.{place_changes};
ghost use Rattle.random_streams.specs.Delays.{is_delay_law};
ghost use Rattle.shop_model.specs.OwnEvents.{kind_of, first_word, second_word};
ghost use Rattle.shop_model.specs.Sites.{to_self, place_of, drawn_at, told};

use crate::own_event::OwnEvent;
use model_core::{Cells, Effect, Note, Part, Send, keep_place};
use random_streams::{DelayLaw, Stream};

/// Under which seed, at which object and at which tick an event happens.
#[derive(Clone, Copy)]
pub struct Site {
    pub seed: u64,
    pub object: u32,
    pub tick: u64,
}

impl Site {
    /// An event at the object itself, after a delay.
    #[inline(always)]
    pub fn to_self(&self, delay: u64, event: OwnEvent) -> Send
        ensures { result ≡ to_self self.now delay (kind_of event) (first_word event) (second_word event) }
    {
        Send {
            dest: self.object,
            delay,
            kind: event.kind(),
            a: event.first_word(),
            b: event.second_word(),
            rank: event.rank(),
        }
    }

    /// Draws by a law, before anything else is changed.
    #[inline(always)]
    pub fn draw(&self, words: &mut Stream, cells: &Cells, law: &DelayLaw, sheet: &mut Effect) -> u64
        requires law { IsTrue (is_delay_law law.now) }
        requires cells { 0 < length cells.now.contents.words }
        requires blank { sheet.old ≡ blank }
        ensures value { result ≡ (drawn_at self.now (place_of cells.now.contents) law.now).0 }
        ensures bounded { result ≤ 2 ^ 40 }
        ensures few { length sheet.new.changes ≤ 1 }
        ensures sheet { sheet.new ≡ record blank {
          changes = place_changes (place_of cells.now.contents) (drawn_at self.now (place_of cells.now.contents) law.now).1;
        } }
    {
        let place = cells.word(0);
        words.move_to(self.seed, self.object, place);
        let value = words.draw_delay(law);
        keep_place(&mut sheet.changes, place, words.place());
        value
    }
}

/// What is told of an event.
pub fn told(word: u32, a: u64, b: u64) -> Note
    ensures { result ≡ told word a b }
{
    Note::of(Part { word, a, b })
}
