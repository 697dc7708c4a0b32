//! The model of a token ring.
ghost use Rattle.own_model.specs.Rings.{IsRing, ring_laws, ring_meaning};

use event_key::time_of;
use model_core::model::Model as SimulationModel;
use model_core::{Cells, Change, Effect, Ending, Event, Note, OutOfMemory, Part, Send, Start};
use random_streams::{Law, Stream, draw_by};
use std::alloc::Global;

/// The kind of all events: the token comes to a station. What one tells: the station holds it. The fault: it comes late.
pub const TOKEN: u32 = 1;

pub const HOLDS: u32 = 1;

pub const LATE: u32 = 2;

/// A ring of stations. The cells of each are two words: its random place, and the tick at which the token came last.
#[derive(Drop)]
pub struct Ring {
    /// Which random words are drawn.
    pub seed: u64,
    /// How many stations there are, from 1 to 65,536.
    pub stations: u32,
    /// For how many ticks a station holds the token, while it sends.
    pub hold: Law,
    /// For how many ticks a station waits for the token at most: if it comes later, the ring fails.
    pub patience: u64,
    ghost in_range: { IsRing stations hold },
}

#[tactic(auto, unfolding(crate::specs::Rings::ring_meaning))]
impl SimulationModel for Ring {
    ghost meaning = { λ r. ring_meaning r.seed r.stations r.hold r.patience };

    ghost laws = { λ r. ring_laws r.seed r.stations r.hold r.patience r.in_range };

    fn objects(&self) -> u32 {
        self.stations
    }

    fn starts(&self) -> u32 {
        1
    }

    fn start(&self, _i: u32) -> Start {
        Start {
            time: 0,
            dest: 0,
            kind: TOKEN,
            a: 0,
            b: 0,
            rank: 0,
        }
    }

    fn first_cells(&self, alloc: Global, _object: u32) -> Result<Cells, OutOfMemory> {
        Cells::of_words(alloc, &[0, 0])
    }

    fn is_lawful(&self, _object: u32, cells: &Cells) -> bool {
        cells.words() == 2 && cells.lines() == 0
    }

    fn respond(
        &self,
        words: &mut Stream,
        object: u32,
        cells: &Cells,
        event: &Event,
        sheet: &mut Effect,
    ) -> Result<Ending, OutOfMemory> {
        let now = time_of(event.key.stamp);
        let waited = now.saturating_sub(cells.word(1));
        if waited > self.patience {
            return Ok(Ending::Fails(LATE));
        }
        let (ticks, place) = draw_by(words, self.seed, object, cells.word(0), &self.hold);
        sheet.clear();
        sheet.changes.push(Change::Set {
            word: 0,
            value: place,
        });
        sheet.changes.push(Change::Set {
            word: 1,
            value: now,
        });
        sheet.sends.push(Send {
            dest: (object + 1) % self.stations,
            delay: ticks,
            kind: TOKEN,
            a: 0,
            b: 0,
            rank: 0,
        });
        sheet.note = Note::of(Part {
            word: HOLDS,
            a: ticks,
            b: waited,
        });
        Ok(Ending::Goes)
    }

    fn put_name(&self, alloc: Global, object: u32, into: &mut Vec<u8>) -> Result<(), OutOfMemory> {
        let name = format!(in alloc; "s{object}")?;
        into.extend_from_slice(name.as_bytes())?;
        Ok(())
    }

    fn word(&self, number: u32) -> Option<&'static str> {
        (number == HOLDS).then_some("hold")
    }

    fn fault(&self, code: u32) -> Option<&'static str> {
        (code == LATE).then_some("late")
    }
}
