//! A processed event in a pile.
ghost use Rattle.std.specs.Prelude.{◌≡◌};
ghost use Rattle.event_key.specs.declared.stamp.TheConstants.{NO_STAMP};
ghost use Rattle.key_order.specs.Stamps.{least_stamp};

use crate::done::Done;
use event_chain::Cell;

/// A processed event in a pile.
#[derive(Drop)]
pub struct Entry {
    pub done: Cell<Done>,
    /// The least stamp that it sends, or `NO_STAMP`.
    pub least: u64,
    /// The least that it and those below it send.
    pub held: u64,
    ghost least_is: { least ≡ least_stamp NO_STAMP done.sends },
}
