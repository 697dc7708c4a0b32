//! The rule of the word, and the kinds of step that its seats take.
ghost use Rattle.std.specs.Prelude.{min};
ghost use Rattle.horizon_word.specs.Rule.{WordRule, Finds, first_note, note_after_lower, note_after_read};

use crate::note::{Note, Opening};
use atomic_table::{Play, Split, TableRule};

/// A word that only falls, to the least stamp that was offered to it.
pub(crate) struct Falling;

impl TableRule<(), Note, Opening> for Falling {
    ghost holds = { WordRule };

    ghost first = { first_note };
}

/// The fetch-min: the seat offers a stamp.
pub(crate) struct Lower;

impl Play<(), Note> for Lower {
    ghost then = { λ step me found after.
        Finds me.0 found (note_after_lower me.0 step.first (min found step.first)) after.0 };
}

/// The load: the seat reads the word.
pub(crate) struct Read;

impl Play<(), Note> for Read {
    ghost then = { λ step me found after.
        Finds me.0 found (note_after_read me.0 found) after.0 };
}

/// The making of a seat, which begins with a copy of what the first one knows.
pub(crate) struct Copied;

impl Split<Note> for Copied {
    ghost left = { λ note. note };

    ghost right = { λ note. note };
}
