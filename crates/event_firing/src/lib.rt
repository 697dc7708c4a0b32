//! An event at its object: what each engine does alike, whatever keeps the pending events.
#![tactic(auto)]

mod beginning;
mod object;
mod sending;
mod settling;

pub use beginning::{first_event, first_objects};
pub use object::Object;
pub use sending::{has_endless_chain, sent_event};
pub use settling::settle;
