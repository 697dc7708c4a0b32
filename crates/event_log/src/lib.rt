//! What a node has processed and not yet committed: flat lists in the order of the keys, with messages that lie in the
//! chains of their homes at once, and beside them what is carried over a commit (optimistic processing; Jefferson, "Virtual
//! Time", 1985).
#![tactic(auto)]

mod carried;
mod committing;
mod contents;
mod entry;
mod items;
mod kept;
mod latest;
mod log;
mod moved;
mod news;
mod outbox;
mod parting;
mod popped;
mod processed;
mod reading;
mod row;
mod sending;
mod turning;
mod undo_list;

pub use log::NodeLog;
pub use model_core::OutOfMemory;
pub use moved::{LogRoom, MovedLog};
pub use news::News;
pub use outbox::Outbox;
pub use row::Row;
