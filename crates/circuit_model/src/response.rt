//! What an event does at a gate.
ghost use Rattle.std.specs.Prelude.{◌≡◌, ◌+◌, ◌<◌, ◌≤◌, [], length, map, drop, IsTrue};
ghost use Rattle.std.specs.List.{list_all};
ghost use Rattle.circuit_model.specs.Events.{is_bit, is_gate_cells, is_level, levels_of, output_of, output_on, output_after};
ghost use Rattle.circuit_model.specs.Events.{pin_changes, level_to, rises, told, effect_of};
ghost use Rattle.circuit_model.specs.Gates.{HasPins, ones_in, delay_of};
ghost use Rattle.circuit_model.specs.Hot.{bare};

use crate::gate::{LogicGate, LogicKind};
use crate::hot::HotGate;
use crate::starts::{COMPUTE, LEVEL, TURN};
use crate::wiring::Pin;
use model_core::{Cells, Change, Effect, Event, Few, LEVEL_WORD, Note, Part, Send};

/// The word of a gate's cells that is its output.
const OUTPUT: u32 = 1;

/// The first word of a gate's cells that is a pin.
const FIRST_PIN: u32 = 2;

/// The pin of a flip-flop that is its data.
const DATA: u32 = 0;

/// The pin of a flip-flop that is its clock.
const CLOCK: u32 = 1;

impl LogicGate {
    /// How many words its cells have.
    pub fn words(&self) -> usize
        requires { HasPins self.now.kind (length self.now.from) }
        ensures { result ≡ length self.now.from + 2 }
    {
        self.pins() + 2
    }

    /// Whether it may have these cells: word 0 is 0, and its output and its pins are 0 or 1.
    pub fn is_lawful(&self, cells: &Cells) -> bool
        requires { HasPins self.now.kind (length self.now.from) }
        ensures { result ≡ is_gate_cells self.now cells.now.contents }
    {
        cells.words() as usize == self.words()
            && cells.lines() == 0
            && cells.word(0) == 0
            && are_bits(cells)
    }
}

impl HotGate {
    /// Writes what an event does at it, where it feeds these pins.
    #[inline(always)]
    pub fn respond(&self, fed: &[Pin], cells: &Cells, event: &Event, sheet: &mut Effect)
        requires pins { HasPins self.now.kind (length (bare self.now).from) }
        requires lawful { IsTrue (is_gate_cells (bare self.now) cells.now.contents) }
        requires few { length fed.now ≤ 8 }
        ensures { sheet.new ≡ effect_of (bare self.now) fed.now cells.now.contents event.now }
    {
        let output = self.output_after(cells, event);
        sheet.clear();
        self.change_pin(event, &mut sheet.changes);
        if output != cells.word(OUTPUT) {
            sheet.changes.push(Change::Set {
                word: OUTPUT,
                value: output,
            });
            self.send_all(output, fed, &mut sheet.sends);
            sheet.note = self.told(output);
        }
    }

    /// How many pins it has.
    fn pins(&self) -> usize
        ensures { result ≡ length (bare self.now).from }
    {
        usize::from(self.pins)
    }

    /// How long its output takes to the pins that it feeds, in ticks.
    fn output_delay(&self) -> u64
        ensures { result ≡ delay_of (bare self.now) }
    {
        if self.kind.is_input() { 0 } else { self.delay }
    }

    /// The output that an event leaves.
    #[tactic(auto, unfolding(crate::specs::Events::output_after))]
    fn output_after(&self, cells: &Cells, event: &Event) -> u64
        requires pins { HasPins self.now.kind (length (bare self.now).from) }
        requires lawful { IsTrue (is_gate_cells (bare self.now) cells.now.contents) }
        ensures { result ≡ output_after (bare self.now) cells.now.contents event.now }
    {
        let held = cells.word(OUTPUT);
        if event.kind == TURN {
            return self.kind.toggled(held);
        }
        if event.kind == COMPUTE {
            let ones = self.ones(cells);
            return self.kind.value(ones, self.pins() as u64, held);
        }
        if self.is_level(event) {
            return self.output_on(cells, event.a as u32, event.b % 2);
        }
        held
    }

    /// Whether the event brings a level to a pin that there is.
    fn is_level(&self, event: &Event) -> bool
        ensures { result ≡ is_level (bare self.now) event.now }
    {
        event.kind == LEVEL && event.a < self.pins() as u64
    }

    /// The output once a pin has taken a level.
    #[tactic(auto, unfolding(crate::specs::Events::output_on))]
    fn output_on(&self, cells: &Cells, place: u32, level: u64) -> u64
        requires pins { HasPins self.now.kind (length (bare self.now).from) }
        requires lawful { IsTrue (is_gate_cells (bare self.now) cells.now.contents) }
        requires exists { place < length (bare self.now).from }
        requires level { level ≤ 1 }
        ensures { result ≡ output_on self.now.kind (levels_of cells.now.contents) (output_of cells.now.contents) place level }
    {
        let before = cells.word(FIRST_PIN + place);
        if rises(self.kind, place, before, level) {
            return cells.word(FIRST_PIN + DATA);
        }
        let ones = self.ones(cells) - before + level;
        self.kind
            .value(ones, self.pins() as u64, cells.word(OUTPUT))
    }

    /// How many of the pins are 1.
    fn ones(&self, cells: &Cells) -> u64
        requires pins { HasPins self.now.kind (length (bare self.now).from) }
        requires lawful { IsTrue (is_gate_cells (bare self.now) cells.now.contents) }
        ensures { result ≡ ones_in (levels_of cells.now.contents) }
    {
        let mut ones = 0;
        for place in 0..self.pins() as u32 {
            ones += cells.word(FIRST_PIN + place);
        }
        ones
    }

    /// Lets a pin take the level that an event brings.
    fn change_pin(&self, event: &Event, changes: &mut Few<Change, 16>)
        requires pins { HasPins self.now.kind (length (bare self.now).from) }
        requires blank { changes.old ≡ [] }
        ensures { changes.new ≡ pin_changes (bare self.now) event.now }
    {
        if self.is_level(event) {
            changes.push(Change::Set {
                word: FIRST_PIN + event.a as u32,
                value: event.b % 2,
            });
        }
    }

    /// What is told of an output.
    fn told(&self, output: u64) -> Note
        ensures { result ≡ told (bare self.now) output }
    {
        if !self.probe {
            return Note::none();
        }
        Note::of(Part {
            word: LEVEL_WORD,
            a: output,
            b: 0,
        })
    }

    /// Sends an output to the pins that the gate feeds.
    fn send_all(&self, output: u64, pins: &[Pin], sends: &mut Few<Send, 8>)
        requires few { length pins.now ≤ 8 }
        requires blank { sends.old ≡ [] }
        ensures { sends.new ≡ map (level_to (delay_of (bare self.now)) output) pins.now }
    {
        let delay = self.output_delay();
        for pin in pins {
            sends.push(Send {
                dest: pin.gate,
                delay,
                kind: LEVEL,
                a: u64::from(pin.place),
                b: output,
                rank: 0,
            });
        }
    }
}

/// Whether a pin is the clock of a flip-flop, and rises from the level before to this one.
fn rises(kind: LogicKind, place: u32, before: u64, level: u64) -> bool
    ensures { result ≡ rises kind place before level }
{
    kind.is_flip_flop() && place == CLOCK && before == 0 && level == 1
}

/// Whether all words past the first are 0 or 1.
fn are_bits(cells: &Cells) -> bool
    ensures { result ≡ list_all is_bit (drop 1 cells.now.contents.words) }
{
    for word in 1..cells.words() {
        if cells.word(word) > 1 {
            return false;
        }
    }
    true
}
