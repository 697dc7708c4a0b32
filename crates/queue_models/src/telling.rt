//! What objects tell of events.
ghost use Rattle.std.specs.Prelude.{◌≡◌, ◌<◌, ◌^◌, ◌∷◌, [], true, length};
ghost use Rattle.delta_exchange.specs.Changes.{cells_after_all};
ghost use Rattle.queue_models.specs.Telling.{load, note_told};
ghost use Rattle.queue_models.specs.Loads.{HasLoad, busy_after, waiting_after};

use crate::kind::Item;
use crate::station::{BUSY, JOBS};
use model_core::{Cells, Change, Effect, LOAD_WORD, Note, Part};

/// How many servers are busy after a change of a station's cells, where so many were before it.
fn busy_after(change: &Change, busy: u64) -> u64
    ensures { result ≡ busy_after change.now busy }
{
    match *change {
        Change::Set { word, value } if word == BUSY => value,
        _ => busy,
    }
}

/// How many jobs wait after a change of a station's cells, where so many waited before it.
fn waiting_after(change: &Change, waiting: u64) -> u64
    requires { waiting < 2 ^ 63 }
    ensures { result ≡ waiting_after change.now waiting }
{
    match *change {
        Change::Push { line, .. } | Change::Unpop { line, .. } if line == JOBS => waiting + 1,
        Change::Pop { line } | Change::Unpush { line } if line == JOBS => waiting.saturating_sub(1),
        _ => waiting,
    }
}

/// The load of a station after these changes of its cells.
fn load_after(cells: &Cells, changes: &[Change]) -> Part
    requires { HasLoad cells.now.contents changes.now }
    ensures { result ∷ [] ≡ load (cells_after_all changes.now cells.now.contents) }
{
    let mut busy = cells.word(BUSY);
    let mut waiting = cells.line_len(JOBS) as u64;
    for change in changes {
        busy = busy_after(change, busy);
        waiting = waiting_after(change, waiting);
    }
    Part {
        word: LOAD_WORD,
        a: busy,
        b: waiting,
    }
}

impl Item {
    /// Makes the note of an event with this effect on these cells what this object tells of it.
    pub(crate) fn tell(&self, cells: &Cells, sheet: &mut Effect)
        requires load { self.now.trace ≡ true → HasLoad cells.now.contents sheet.old.changes }
        requires room { length sheet.old.note < 4 }
        ensures changes { sheet.new.changes ≡ sheet.old.changes }
        ensures sends { sheet.new.sends ≡ sheet.old.sends }
        ensures note { sheet.new.note ≡ note_told self.now.quiet self.now.trace cells.now.contents sheet.old }
    {
        if self.quiet {
            sheet.note = Note::none();
        } else if self.trace {
            sheet.note.add(load_after(cells, sheet.changes.as_slice()));
        }
    }
}
