//! Reading the lines of a state text, one function for each kind.
ghost use Rattle.std.specs.Prelude.{◌≡◌, ◌≤◌, Some, None, option_copied, IfOk};
ghost use Rattle.run_save.specs.Checks.{Gives};
ghost use Rattle.run_save.specs.Lines.{named, object, stamp, key, event_line, is_above, event};
ghost use Rattle.run_save.specs.Rests.{each, in_turn};
ghost use Rattle.run_save.specs.Views.{rest_of};

use crate::cursor::Cursor;
use crate::refusal::{StateCause, StateRefusal};
use event_key::{Key, STEPS, stamp_of};
use model_core::{Cells, Event};
use sim_spec::ObjectState;
use std::alloc::Global;

/// The last tick in which an event may be pending.
const MOST_TIME: u64 = (1 << 47) - 1;

/// The greatest step of a tick.
const MOST_STEP: u64 = STEPS - 1;

/// How many bytes the line of an event has at least.
const LEAST_LINE: u64 = 24;

/// Whether a key is above that of the event before, if there is one.
fn is_above(before: Option<&Event>, key: &Key) -> bool
    ensures { result ≡ is_above (option_copied before.entry) key.now }
{
    match before {
        Some(event) => event.key.is_before(key),
        None => true,
    }
}

impl Cursor<'_> {
    /// The line of a word and a number from 0 to the greatest.
    #[tactic(auto, unfolding(crate::specs::Lines::named))]
    pub fn named(&mut self, word: &[u8], most: u64) -> Result<u64, StateRefusal>
        ensures read { Gives (λ x. (x, rest_of self.new)) result (named word.now most (rest_of self.old)) }
        ensures within { IfOk result (λ x. x ≤ most) }
    {
        self.skip(word)?;
        let value = self.field(most)?;
        self.next_line()?;
        Ok(value)
    }

    /// The line of an object.
    #[tactic(auto, unfolding(crate::specs::Lines::object))]
    fn object(&mut self, alloc: Global) -> Result<ObjectState, StateRefusal>
        ensures { Gives (λ x. (x, rest_of self.new)) result (object (rest_of self.old)) }
    {
        self.skip(b"object")?;
        let sent = self.any_field()?;
        let words = self.counted(alloc)?;
        let many = self.any_field()?;
        let lines = self.lines(alloc, many)?;
        self.next_line()?;
        let cells = Cells::new(alloc, words, lines)?;
        Ok(ObjectState { cells, sent })
    }

    /// The lines of so many objects.
    pub fn objects(&mut self, alloc: Global, count: u64) -> Result<Vec<ObjectState>, StateRefusal>
        ensures { Gives (λ x. (x.items, rest_of self.new)) result (each object count (rest_of self.old)) }
    {
        let mut objects = Vec::new(alloc);
        for _ in 0..count {
            let object = self.object(alloc)?;
            objects.push(object)?;
        }
        Ok(objects)
    }

    /// A time and a step.
    #[tactic(auto, unfolding(crate::specs::Lines::stamp))]
    fn stamp(&mut self) -> Result<u64, StateRefusal>
        ensures { Gives (λ x. (x, rest_of self.new)) result (stamp (rest_of self.old)) }
    {
        let time = self.number(MOST_TIME)?;
        self.skip(b".")?;
        let step = self.number(MOST_STEP)?;
        Ok(stamp_of(time, step as u32))
    }

    /// The key of an event.
    #[tactic(auto, unfolding(crate::specs::Lines::key))]
    fn key(&mut self) -> Result<Key, StateRefusal>
        ensures { Gives (λ x. (x, rest_of self.new)) result (key (rest_of self.old)) }
    {
        Ok(Key {
            stamp: self.stamp()?,
            rank: self.small_field()?,
            dest: self.small_field()?,
            src: self.small_field()?,
            serial: self.any_field()?,
        })
    }

    /// The line of an event, in whatever order.
    #[tactic(auto, unfolding(crate::specs::Lines::event_line))]
    fn event_line(&mut self) -> Result<Event, StateRefusal>
        ensures { Gives (λ x. (x, rest_of self.new)) result (event_line (rest_of self.old)) }
    {
        self.skip(b"event ")?;
        let event = Event {
            key: self.key()?,
            kind: self.small_field()?,
            a: self.any_field()?,
            b: self.any_field()?,
        };
        self.next_line()?;
        Ok(event)
    }

    /// The line of an event, in the order of the keys.
    #[tactic(auto, unfolding(crate::specs::Lines::event))]
    fn event(&mut self, before: Option<&Event>) -> Result<Event, StateRefusal>
        ensures { Gives (λ x. (x, rest_of self.new)) result (event (option_copied before.entry) (rest_of self.old)) }
    {
        let line = self.line;
        let event = self.event_line()?;
        if !is_above(before, &event.key) {
            return Err(StateCause::BadLine.at(line));
        }
        Ok(event)
    }

    /// The lines of so many events. It asks for no more memory than the text that is left can fill.
    pub fn events(&mut self, alloc: Global, count: u64) -> Result<Vec<Event>, StateRefusal>
        ensures { Gives (λ x. (x.items, rest_of self.new)) result (in_turn event None count (rest_of self.old)) }
    {
        let room = count.min(self.bytes.len() as u64 / LEAST_LINE);
        let mut events = Vec::with_capacity(alloc, room as usize)?;
        for _ in 0..count {
            let event = self.event(events.last())?;
            events.push(event)?;
        }
        Ok(events)
    }
}
