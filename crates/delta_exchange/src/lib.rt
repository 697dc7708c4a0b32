//! Delta exchange, this project's own form of incremental state saving: the state of an object, and changes of it
//! that turn into their inverses as they are done, so that doing those from the last to the first
//! takes them back.
#![tactic(auto)]

mod cells;
mod change;
mod laws;
mod line;
mod memory;
mod words;

pub use cells::Cells;
pub use change::Change;
pub use laws::{
    law_lines_named, law_more_spare, law_more_spare_stays, law_room, law_undo, law_undo_first,
    law_undo_last,
};
pub use memory::OutOfMemory;
