//! What undoes an event, in place.
ghost use Rattle.std.specs.Prelude.{◌≡◌, ◌≤◌, [], length};
ghost use Rattle.object_log.specs.Dones.{Done};
ghost use Rattle.object_log.specs.Objects.{HasUndone, IsNewest};

use model_core::Change;
use object_log::Object;
use std::marker::Model;

/// How many changes an event makes at most.
const MOST_CHANGES: usize = 16;

/// What undoes the changes of an event, from the last to the first. They stand in place, so that a list takes no memory.
#[derive(Drop)]
pub struct UndoList {
    count: u32,
    changes: [Change; 16],
}

impl Model for UndoList {
    ghost use Rattle.std.specs.Prelude.{◌≡◌, ◌≤◌, List, length, take};
    ghost use Rattle.delta_exchange.specs.declared.change.Change.{Change};

    ghost Value = { List Change };

    ghost view = { λ list. take list.count list.changes };

    ghost invariant = { λ list. (list.count ≤ 16) × (length list.changes ≡ 16) };
}

impl UndoList {
    /// No change.
    pub fn new() -> UndoList
        ensures { result ≡ [] }
    {
        UndoList {
            count: 0,
            changes: [Change::Pop { line: 0 }; MOST_CHANGES],
        }
    }

    /// Puts these changes in, in place of those that are there.
    #[inline(always)]
    pub fn fill(&mut self, changes: &[Change])
        requires { length changes.now ≤ 16 }
        ensures { self.new ≡ changes.now }
    {
        let count = changes.len();
        self.changes[..count].copy_from_slice(changes);
        self.count = count as u32;
    }

    /// Takes the event back at its object, which fired it last of those that it has not taken back. It sent so many messages.
    #[inline(always)]
    pub fn take_back(&mut self, object: &mut Object, sends: usize)
        requires { (d : Done) × IsNewest object.old d × (self.old ≡ d.undo) × (sends ≡ length d.sends) }
        ensures { (d : Done) → self.old ≡ d.undo → sends ≡ length d.sends → HasUndone object.old object.new d }
    {
        object.take_back(&mut self.changes[..self.count as usize], sends);
    }
}
