//! Lines of events that are under way.
ghost use Rattle.std.specs.Prelude.{◌≡◌, ◌<◌, ◌++◌, [], IfOk, OnOk};
ghost use Rattle.sim_io.specs.Texts.{event_lines, stop_line, IsAtObject};

use event_key::Key;
use model_core::model::Model as SimulationModel;
use model_core::{Note, OutOfMemory};
use run_recorder::Recorder;
use sim_io::{LineWriter, put_stop};
use sim_spec::{Stop, Terms};
use std::alloc::Global;
use std::marker::Model;

/// Lines of events that are under way, and the writer of the next ones. Contracts see their text.
#[derive(Drop)]
pub struct LineBuffer {
    writer: LineWriter,
    text: Vec<u8>,
}

impl Model for LineBuffer {
    ghost use Rattle.std.specs.Prelude.{ℕ, List};

    ghost Value = { List ℕ };

    ghost view = { λ lines. lines.text.items };
}

impl Recorder for LineBuffer {
    ghost use Rattle.std.specs.Prelude.{◌≡◌};
    ghost use Rattle.sim_io.specs.Texts.{record_lines};

    ghost holds = { λ meaning lines records. lines ≡ record_lines meaning records };
}

/// Appends the lines of an event, one for each part of its note. The parts are taken one by one, and no list is made of them.
fn put_note<M: SimulationModel>(
    writer: &mut LineWriter,
    alloc: Global,
    model: &M,
    key: &Key,
    note: &Note,
    into: &mut Vec<u8>,
) -> Result<(), OutOfMemory>
    requires { key.now.dest < (M.meaning model.now).objects }
    ensures { OnOk result (into.new.items ≡ into.old.items ++ event_lines (M.meaning model.now) key.now note.now) }
{
    for i in 0..note.len() {
        writer.put_line(alloc, model, key, note.at(i), into)?;
    }
    Ok(())
}

impl LineBuffer {
    /// No line.
    pub fn new(alloc: Global) -> Result<LineBuffer, OutOfMemory>
        ensures { IfOk result (λ lines. lines ≡ []) }
    {
        Ok(LineBuffer {
            writer: LineWriter::new(alloc)?,
            text: Vec::new(alloc),
        })
    }

    /// Lets all lines go, and keeps their room.
    pub fn clear(&mut self)
        ensures { self.new ≡ [] }
    {
        self.text.clear();
    }

    /// Appends the lines of an event. A refusal may leave some of them.
    pub fn put<M: SimulationModel>(
        &mut self,
        alloc: Global,
        model: &M,
        key: &Key,
        note: &Note,
    ) -> Result<(), OutOfMemory>
        requires { key.now.dest < (M.meaning model.now).objects }
        ensures { OnOk result (self.new ≡ self.old ++ event_lines (M.meaning model.now) key.now note.now) }
    {
        put_note(&mut self.writer, alloc, model, key, note, &mut self.text)
    }

    /// Appends the line that says why a simulation stopped, after so many events.
    pub fn put_stop<M: SimulationModel>(
        &mut self,
        alloc: Global,
        model: &M,
        terms: &Terms,
        count: u64,
        stop: &Stop,
    ) -> Result<(), OutOfMemory>
        requires { IsAtObject (M.meaning model.now) stop.now }
        ensures { OnOk result (self.new ≡ self.old ++ stop_line (M.meaning model.now) terms.now count stop.now) }
    {
        put_stop(alloc, model, terms, count, stop, &mut self.text)
    }

    /// Their text.
    pub fn as_slice(&self) -> &[u8]
        ensures { result.now ≡ self.now }
    {
        self.text.as_slice()
    }
}
