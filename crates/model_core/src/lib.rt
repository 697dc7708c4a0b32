//! Events, what they change, send and tell, and the models that say so.
#![tactic(auto)]

mod digits;
mod effect;
mod entry;
mod event;
mod few;
mod limits;
mod merging;
pub mod model;
mod name;
mod note;
mod place;
mod record_head;
mod records;
mod sequence;
mod words;
mod writing;

pub use delta_exchange::{Cells, Change, OutOfMemory};
pub use digits::Digits;
pub use effect::{Effect, Ending, Outcome};
pub use entry::Entry;
pub use event::{Event, Send, Start};
pub use few::Few;
pub use limits::{
    MOST_AHEAD, MOST_DEMO_STATIONS, MOST_ENTRIES, MOST_EVENTS, MOST_NODES, MOST_OBJECTS,
    MOST_TEXT_BYTES,
};
pub use name::Name;
pub use note::{Note, Part};
pub use place::keep_place;
pub use random_streams::Stream;
pub use records::{RecordBuffer, Records};
pub use sequence::Sequence;
pub use words::{
    CALLED_WORD, DELAYED_WORD, DONE_WORD, DOWN_WORD, DROPPED_WORD, ENDLESS_CHAIN, FREED_WORD,
    HELD_WORD, HOP_WORD, LATE, LEFT_WORD, LEVEL_WORD, LINE_FULL, LOAD_WORD, LOST_WORD, MADE_WORD,
    OPENED_WORD, OVERDUE_WORD, RENEGED_WORD, ROUTED_WORD, TAKEN_WORD, UP_WORD, WAITING_WORD,
    WENT_WORD, fault_word, record_word, write_record_word,
};
pub use writing::{write_byte, write_first};
