//! The model PHOLD.
ghost use Rattle.std.specs.Prelude.{◌≡◌, ◌<◌, ◌^◌, IfOk, IsOkAnd, IsTrue};
ghost use Rattle.phold_model.specs.Parts.{IsPhold, divisor_of, phold_parts};
ghost use Rattle.phold_model.specs.Meaning.{phold_meaning, hop_start};

use itoa::Buffer;
use model_core::model::Model as SimulationModel;
use model_core::{
    Cells, Digits, Effect, Ending, Entry, Event, HOP_WORD, Note, OutOfMemory, Part, Send, Start,
    fault_word, keep_place, record_word, write_byte, write_record_word,
};
use random_streams::{Divisor, Law, PreparedLaw, Stream};
use std::alloc::Global;

/// The kind of a hop's event.
const HOP_KIND: u32 = 4;

/// Objects that hand events on: each event sends one to the next object, or to one that is drawn evenly, after a
/// delay that is drawn by a law.
#[derive(Drop)]
pub struct Phold {
    seed: u64,
    objects: u32,
    delay: PreparedLaw,
    uniform: bool,
    each: u32,
    start: Vec<Entry>,
    rank: u32,
    // the number of objects, by which the word of a destination is divided
    evenly: Divisor,
    ghost in_range: { IsPhold (phold_parts seed objects delay uniform each start.items rank) },
    ghost divides: { evenly ≡ divisor_of objects },
}

/// What an event draws at its object: a delay, a destination, and the place of the words after those that were read.
#[derive(Clone, Copy)]
struct Hop {
    delay: u64,
    dest: u32,
    next: u64,
}

impl Phold {
    ghost use Rattle.phold_model.specs.Views.{parts_of};

    /// The model with these parts: a seed, a number of objects, the law of the delay, whether the destination is drawn
    /// evenly or is the next object, how many events each object has at time 0, further initial events, and the rank
    /// of what is sent and of the events at time 0. It takes no memory, and so is never refused.
    #[tactic(auto, unfolding(crate::specs::Parts::divisor_of))]
    pub fn make(
        seed: u64,
        objects: u32,
        delay: Law,
        uniform: bool,
        each: u32,
        start: Vec<Entry>,
        rank: u32,
    ) -> Result<Phold, OutOfMemory>
        requires { IsPhold (phold_parts seed objects delay uniform each start.items rank) }
        ensures meaning { IsOkAnd result (λ phold. ⟦<Phold as SimulationModel>⟧.meaning phold
            ≡ phold_meaning (phold_parts seed objects delay uniform each start.items rank)) }
        ensures parts { IfOk result (λ phold. parts_of phold ≡ phold_parts seed objects delay uniform each start.items rank) }
    {
        Ok(Phold {
            seed,
            objects,
            delay: PreparedLaw::new(delay),
            uniform,
            each,
            start,
            rank,
            evenly: Divisor::new(u64::from(objects.max(1))),
        })
    }
}

/// An initial event.
fn hop_start(time: u64, dest: u32, rank: u32) -> Start
    ensures { result ≡ hop_start time dest rank }
{
    Start {
        time,
        dest,
        kind: HOP_KIND,
        a: 0,
        b: 0,
        rank,
    }
}

impl Phold {
    ghost use Rattle.model_core.specs.Effects.{outcome_by};
    ghost use Rattle.phold_model.specs.Meaning.{hop_delay, hop_dest, hop_effect, hop_next, is_hop_cells};
    ghost use Rattle.phold_model.specs.Parts.{phold_under};
    ghost use Rattle.phold_model.specs.Views.{parts_of};

    /// What an event draws under a seed at an object whose random place is this, by a stream that may have the words at
    /// hand.
    #[tactic(auto, unfolding(crate::specs::Meaning::hop_delay, crate::specs::Meaning::hop_dest, crate::specs::Meaning::hop_next, crate::specs::Parts::divisor_of))]
    fn hop(&self, words: &mut Stream, seed: u64, object: u32, place: u64) -> Hop
        requires { object < self.now.objects }
        ensures delay { result.delay ≡ hop_delay (phold_under seed (parts_of self.now)) object place }
        ensures dest { result.dest ≡ hop_dest (phold_under seed (parts_of self.now)) object place }
        ensures next { result.next ≡ hop_next (phold_under seed (parts_of self.now)) object place }
    {
        words.move_to(seed, object, place);
        let delay = words.draw_prepared(&self.delay);
        let number = if self.uniform {
            words.word()
        } else {
            object + 1
        };
        Hop {
            delay,
            dest: self.evenly.remainder(number) as u32,
            next: words.place(),
        }
    }

    /// What an event does under a seed in place of the model's own, as `respond` says it.
    #[tactic(auto, unfolding(crate::specs::Meaning::phold_meaning, crate::specs::Meaning::hop_effect))]
    pub fn respond_under(
        &self,
        seed: u64,
        words: &mut Stream,
        object: u32,
        cells: &Cells,
        sheet: &mut Effect,
    ) -> Result<Ending, OutOfMemory>
        requires object { object < (parts_of self.now).objects }
        requires lawful { IsTrue (is_hop_cells cells.now.contents) }
        ensures { IfOk result (λ ending. outcome_by ending sheet.new
            ≡ hop_effect (phold_under seed (parts_of self.now)) object cells.now.contents) }
    {
        let place = cells.word(0);
        let hop = self.hop(words, seed, object, place);
        sheet.clear();
        keep_place(&mut sheet.changes, place, hop.next);
        sheet.sends.push(Send {
            dest: hop.dest,
            delay: hop.delay,
            kind: HOP_KIND,
            a: 0,
            b: 0,
            rank: self.rank,
        });
        sheet.note = Note::of(Part {
            word: HOP_WORD,
            a: hop.delay,
            b: u64::from(hop.dest),
        });
        Ok(Ending::Goes)
    }
}

#[tactic(auto, unfolding(crate::specs::Meaning::phold_meaning))]
impl SimulationModel for Phold {
    ghost use Rattle.phold_model.specs.Meaning.{phold_meaning};
    ghost use Rattle.phold_model.specs.Views.{parts_of};
    ghost use Rattle.phold_model.specs.ModelLaws.{phold_laws};

    ghost meaning = { λ p. phold_meaning (parts_of p) };

    ghost laws = { λ p. phold_laws (parts_of p) p.in_range };

    fn objects(&self) -> u32 {
        self.objects
    }

    fn starts(&self) -> u32 {
        self.objects * self.each + self.start.len() as u32
    }

    fn start(&self, i: u32) -> Start {
        let early = self.objects * self.each;
        if i < early {
            return hop_start(0, i / self.each, self.rank);
        }
        let entry = self.start[(i - early) as usize];
        hop_start(entry.time, entry.at, entry.rank)
    }

    fn first_cells(&self, alloc: Global, _object: u32) -> Result<Cells, OutOfMemory> {
        Cells::of_words(alloc, &[0])
    }

    fn is_lawful(&self, _object: u32, cells: &Cells) -> bool {
        cells.words() == 1 && cells.lines() == 0
    }

    #[tactic(auto, unfolding(crate::specs::Meaning::phold_meaning, crate::specs::Meaning::hop_effect))]
    fn respond(
        &self,
        words: &mut Stream,
        object: u32,
        cells: &Cells,
        _event: &Event,
        sheet: &mut Effect,
    ) -> Result<Ending, OutOfMemory> {
        self.respond_under(self.seed, words, object, cells, sheet)
    }

    fn put_name(&self, _alloc: Global, object: u32, into: &mut Vec<u8>) -> Result<(), OutOfMemory> {
        let before = into.len();
        into.push(b'p')?;
        let mut buffer = Buffer::new();
        let outcome = into.extend_from_slice(buffer.format(object).as_bytes());
        if outcome.is_err() {
            into.truncate(before);
        }
        outcome?;
        Ok(())
    }

    #[inline(always)]
    fn write_name(
        &self,
        digits: &Digits,
        object: u32,
        into: &mut [u8],
        at: usize,
    ) -> Option<usize> {
        let number = write_byte(b'p', into, at);
        Some(digits.write(u64::from(object), into, number))
    }

    fn word(&self, number: u32) -> Option<&'static str> {
        record_word(number)
    }

    fn fault(&self, code: u32) -> Option<&'static str> {
        fault_word(code)
    }

    #[inline(always)]
    fn write_word(&self, number: u32, into: &mut [u8], at: usize) -> Option<usize> {
        write_record_word(number, into, at)
    }
}
