//! The sums of each object within a window of time.
ghost use Rattle.std.specs.Prelude.{◌≡◌, ◌<◌, ◌≤◌, ◌+◌, ◌^◌, ◌++◌, ◌∷◌, [], ℕ, List, length, IfOk, OnOk};
ghost use Rattle.event_key.specs.declared.key.Key.{Key};
ghost use Rattle.event_key.specs.Stamps.{time_part};
ghost use Rattle.model_core.specs.declared.note.Note.{Note};

use crate::rows::{RunEnd, put_columns, put_end, put_seed};
use crate::span::Span;
use crate::window::Window;
use event_key::{Key, time_of};
use model_core::model::Model as SimulationModel;
use model_core::{OutOfMemory, Part};
use sim_spec::{Stop, Terms};
use std::alloc::Global;
use std::marker::Model;

/// A row: the object that it is of, its window, and how the run ended.
#[derive(Clone, Copy)]
struct Row {
    object: u32,
    span: Span,
    end: RunEnd,
}

/// What is known of each object of a model within a window that begins at a tick, kept as records come.
#[derive(Drop)]
pub struct Windows {
    objects: Vec<Window>,
    first_tick: u64,
    records: u64,
    last_time: u64,
}

impl Model for Windows {
    ghost use Rattle.replications.specs.Tables.{AreSmall, WindowsView};

    ghost Value = { WindowsView };

    ghost view = { λ windows. record {
      objects = windows.objects.items;
      first_tick = windows.first_tick;
      records = windows.records;
      last_time = windows.last_time;
    } };

    ghost invariant = { λ windows. AreSmall windows.objects.items windows.records windows.last_time };
}

impl Windows {
    ghost use Rattle.replications.specs.Tables.{windows_of};
    ghost use Rattle.replications.specs.Rows.{last_tick, row_of, rows_of_records};
    ghost use Rattle.model_core.specs.declared.limits.TheConstants.{MOST_EVENTS};

    /// No record yet, for a model with so many objects and a window that begins at this tick. The one error is that memory ran out.
    pub fn new(alloc: Global, objects: u32, first_tick: u64) -> Result<Windows, OutOfMemory>
        ensures { IfOk result (λ windows. windows ≡ windows_of first_tick objects []) }
    {
        Ok(Windows {
            objects: vec![in alloc; Window::none(); objects as usize]?,
            first_tick,
            records: 0,
            last_time: 0,
        })
    }

    /// One record more, of at most four parts, at an object that there is. It takes no memory, and time for its own parts
    /// alone.
    pub fn add(&mut self, key: &Key, parts: &[Part])
        requires object { key.now.dest < length self.old.objects }
        requires few { length parts.now ≤ 4 }
        requires room { self.old.records < MOST_EVENTS }
        ensures windows { (first_tick objects : ℕ) (records : List (Key × Note)) → self.old ≡ windows_of first_tick objects records
            → self.new ≡ windows_of first_tick objects (records ++ (key.now, parts.now) ∷ []) }
        ensures objects { length self.new.objects ≡ length self.old.objects }
        ensures records { self.new.records ≡ self.old.records + 1 }
    {
        let time = time_of(key.stamp);
        let window = &mut self.objects[key.dest as usize];
        window.add(self.first_tick, time, parts);
        self.records += 1;
        self.last_time = time;
    }

    /// The last tick of a run of these records that stopped for this reason.
    fn last_tick(&self, terms: &Terms, stop: &Stop) -> u64
        ensures tick { (first_tick objects : ℕ) (records : List (Key × Note)) → self.now ≡ windows_of first_tick objects records
            → result ≡ last_tick terms.now records stop.now }
        ensures below { result ≤ 2 ^ 48 }
    {
        match stop {
            Stop::End => terms.end,
            Stop::Limit => self.last_time,
            Stop::Fault { key, .. } => time_of(key.stamp),
        }
    }

    /// Appends a row.
    fn put_row<M: SimulationModel>(
        &self,
        alloc: Global,
        model: &M,
        which: Row,
        into: &mut Vec<u8>,
    ) -> Result<(), OutOfMemory>
        requires object { which.object < (M.meaning model.now).objects }
        requires exists { which.object < length self.now.objects }
        requires last_tick { which.span.last_tick ≤ 2 ^ 48 }
        ensures { (objects : ℕ) (records : List (Key × Note)) → self.now ≡ windows_of which.span.first_tick objects records
            → OnOk result (into.new.items ≡ into.old.items
            ++ row_of (M.meaning model.now) which.span.first_tick which.span.last_tick which.end which.object records) }
    {
        let sums = self.objects[which.object as usize].close(which.span);
        put_seed(which.end.seed, into)?;
        model.put_name(alloc, which.object, into)?;
        put_columns(&sums, into)?;
        put_end(which.span.ticks(), &which.end, into)?;
        Ok(())
    }

    /// Appends the rows of all objects, in order, where these are all records of a run that ended so. The one error is that memory
    /// ran out: then it may have appended some of them.
    pub fn put_rows<M: SimulationModel>(
        &self,
        alloc: Global,
        model: &M,
        terms: &Terms,
        end: &RunEnd,
        into: &mut Vec<u8>,
    ) -> Result<(), OutOfMemory>
        requires { length self.now.objects ≡ (M.meaning model.now).objects }
        ensures { (first_tick objects : ℕ) (records : List (Key × Note)) → self.now ≡ windows_of first_tick objects records
            → OnOk result (into.new.items ≡ into.old.items ++ rows_of_records (M.meaning model.now) terms.now first_tick end.now records) }
    {
        let last_tick = self.last_tick(terms, &end.stop);
        let span = Span {
            first_tick: self.first_tick,
            last_tick,
        };
        for object in 0..model.objects() {
            let row = Row {
                object,
                span,
                end: *end,
            };
            self.put_row(alloc, model, row, into)?;
        }
        Ok(())
    }
}
