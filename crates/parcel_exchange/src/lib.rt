//! How the messages of a cycle go from node to node: each node posts what it hands out, takes what has come by then, and
//! receives the rest once all have posted.
#![tactic(auto)]

mod inbox;
mod posting;

pub use inbox::{Inbox, receive_all};
pub use model_core::OutOfMemory;
pub use posting::post_all;
