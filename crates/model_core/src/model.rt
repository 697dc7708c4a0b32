//! What a simulation asks of a model.
ghost use Rattle.std.specs.Prelude.{◌≡◌, ◌+◌, ◌<◌, ◌≤◌, ◌^◌, ◌++◌, length, option_map, IfOk, OnOk, OnErr, IfSome, IfNone, IsTrue};
ghost use Rattle.event_key.specs.Stamps.{time_part};
ghost use Rattle.model_core.specs.Effects.{outcome_by};
ghost use Rattle.model_core.specs.Meaning.{Meaning, MeaningLaws};
ghost use Rattle.model_core.specs.SpacedWords.{between_spaces, told_word};
ghost use Rattle.model_core.specs.Writing.{WritesAt};

use crate::digits::Digits;
use crate::effect::{Effect, Ending, Outcome};
use crate::event::{Event, Start};
use delta_exchange::{Cells, OutOfMemory};
use random_streams::Stream;
use std::alloc::Global;

/// For how many bytes there is room where a name is written.
pub const NAME_ROOM: usize = 24;

/// For how many bytes there is room where a word is written, with the spaces about it.
pub const WORD_ROOM: usize = 22;

/// A model: objects that change by events, each event at one object.
pub trait Model: std::marker::Send + Sync + Drop {
    /// What it means.
    ghost meaning: { Self → Meaning };

    /// How many objects it has, at most `MOST_OBJECTS`.
    fn objects(&self) -> u32
        ensures { result ≡ (meaning self.now).objects };

    /// How many initial events it has, at most 400,000.
    fn starts(&self) -> u32
        ensures { result ≡ (meaning self.now).starts };

    /// An initial event.
    fn start(&self, i: u32) -> Start
        requires { i < (meaning self.now).starts }
        ensures { result ≡ (meaning self.now).start_at i };

    /// The cells of an object at the start.
    fn first_cells(&self, alloc: Global, object: u32) -> Result<Cells, OutOfMemory>
        requires { object < (meaning self.now).objects }
        ensures { IfOk result (λ cells. cells.contents ≡ (meaning self.now).first object) };

    /// Whether an object may have these cells.
    fn is_lawful(&self, object: u32, cells: &Cells) -> bool
        requires { object < (meaning self.now).objects }
        ensures { result ≡ (meaning self.now).lawful object cells.now.contents };

    /// What an event does at an object with these cells, written into a sheet: whatever that held before plays no part.
    /// A model that wants memory of its own may refuse, and then the sheet may hold anything.
    /// The stream belongs to the object, and an engine keeps it from one of its events to the next, so that the random
    /// words that are at hand there needn't be made again. Wherever the stream stands, the effect is the same.
    fn respond(
        &self,
        words: &mut Stream,
        object: u32,
        cells: &Cells,
        event: &Event,
        sheet: &mut Effect,
    ) -> Result<Ending, OutOfMemory>
        requires object { object < (meaning self.now).objects }
        requires lawful { IsTrue ((meaning self.now).lawful object cells.now.contents) }
        requires time { time_part event.now.key.stamp < 2 ^ 46 }
        ensures { IfOk result (λ ending. outcome_by ending sheet.new
            ≡ (meaning self.now).effect object cells.now.contents event.now) };

    /// The same on a stream and a sheet of its own, for a caller with a single event.
    fn react(
        &self,
        alloc: Global,
        object: u32,
        cells: &Cells,
        event: &Event,
    ) -> Result<Outcome, OutOfMemory>
        requires object { object < (meaning self.now).objects }
        requires lawful { IsTrue ((meaning self.now).lawful object cells.now.contents) }
        requires time { time_part event.now.key.stamp < 2 ^ 46 }
        ensures { IfOk result (λ outcome. outcome ≡ (meaning self.now).effect object cells.now.contents event.now) }
    {
        let mut words = Stream::new(0, object, 0);
        let mut sheet = Effect::new(alloc)?;
        match self.respond(&mut words, object, cells, event, &mut sheet)? {
            Ending::Goes => Ok(Outcome::Goes(sheet)),
            Ending::Fails(code) => Ok(Outcome::Fails(code)),
        }
    }

    /// Appends the name of an object, or nothing where no memory is left.
    fn put_name(&self, alloc: Global, object: u32, into: &mut Vec<u8>) -> Result<(), OutOfMemory>
        requires { object < (meaning self.now).objects }
        ensures ok { OnOk result (into.new.items ≡ into.old.items ++ (meaning self.now).label object) }
        ensures err { OnErr result (into.new.items ≡ into.old.items) };

    /// Writes the name of an object at a place with room for `NAME_ROOM` bytes, and answers the place behind it. A name
    /// that isn't written so, as one that is longer, is left to `put_name`.
    fn write_name(&self, digits: &Digits, object: u32, into: &mut [u8], at: usize) -> Option<usize>
        requires object { object < (meaning self.now).objects }
        requires room { at + NAME_ROOM ≤ length into.old }
        ensures some { IfSome result (λ end. WritesAt into.old into.new at end ((meaning self.now).label object)) }
        ensures few { IfSome result (λ end. end ≤ at + NAME_ROOM) }
        ensures none { IfNone result (into.new ≡ into.old) }
    {
        None
    }

    /// The text of a word that its events tell, where there is one with this number. A number without a word is told as
    /// such.
    fn word(&self, number: u32) -> Option<&'static str>
        ensures { option_map (λ text. text.now) result ≡ (meaning self.now).word number };

    /// The text of a fault, where there is one with this code, above 1.
    fn fault(&self, code: u32) -> Option<&'static str>
        ensures { option_map (λ text. text.now) result ≡ (meaning self.now).fault code };

    /// Writes a word between spaces at a place with room for `WORD_ROOM` bytes, and answers the place behind it. A word that
    /// isn't written so, as one that is longer, is left to `word`.
    fn write_word(&self, number: u32, into: &mut [u8], at: usize) -> Option<usize>
        requires { at + WORD_ROOM ≤ length into.old }
        ensures some { IfSome result (λ end. WritesAt into.old into.new at end (between_spaces (told_word ((meaning self.now).word number) number))) }
        ensures few { IfSome result (λ end. end ≤ at + WORD_ROOM) }
        ensures none { IfNone result (into.new ≡ into.old) }
    {
        None
    }

    /// What each model keeps.
    ghost laws: { (model : Self) → MeaningLaws (meaning model) };
}

/// The laws of a model, for code that is generic in it.
pub fn keeps_laws<M: Model>(model: &M)
    ensures { MeaningLaws (M.meaning model.now) }
{}
