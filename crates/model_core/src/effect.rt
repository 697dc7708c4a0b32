//! What an event does.
ghost use Rattle.std.specs.Prelude.{◌≡◌, IfOk};
ghost use Rattle.model_core.specs.Effects.{blank};

use crate::event::Send;
use crate::few::Few;
use crate::note::Note;
use delta_exchange::{Change, OutOfMemory};
use std::alloc::Global;

/// What an event changes at its object, what it sends, and what is told of it. It is a sheet that is kept from one
/// event to the next and written again, so that an event takes no memory here.
#[derive(Drop)]
pub struct Effect {
    pub changes: Few<Change, 16>,
    pub sends: Few<Send, 8>,
    pub note: Note,
}

/// How an event ends, whose effect stands in a sheet.
#[derive(Clone, Copy, Debug, PartialEq, Eq)]
pub enum Ending {
    /// It has the effect of its sheet.
    Goes,
    /// It fails with a code of the model's, at least 2, and what its sheet holds means nothing.
    Fails(u32),
}

/// An event has an effect, or fails with a code of the model's, at least 2.
#[derive(Drop)]
pub enum Outcome {
    Goes(Effect),
    Fails(u32),
}

impl Effect {
    /// A blank sheet. All the memory that it will ever have is taken here.
    pub fn new(alloc: Global) -> Result<Effect, OutOfMemory>
        ensures { IfOk result (λ sheet. sheet ≡ blank) }
    {
        Ok(Effect {
            changes: Few::new(alloc)?,
            sends: Few::new(alloc)?,
            note: Note::none(),
        })
    }

    /// Makes the sheet blank, for the next event.
    pub fn clear(&mut self)
        ensures { self.new ≡ blank }
    {
        self.changes.clear();
        self.sends.clear();
        self.note = Note::none();
    }
}
