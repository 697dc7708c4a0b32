//! An object between two nodes.
ghost use Rattle.std.specs.Prelude.{◌≡◌, length};

use event_chain::Chain;
use event_log::MovedLog;
use model_core::Event;
use std::marker::Model;

/// An object that has left a node: its log, and the events that wait for it in the order of their keys.
#[derive(Drop)]
pub struct Moved {
    pub(crate) log: MovedLog,
    pub(crate) waiting: Chain<Event>,
}

impl Model for Moved {
    ghost use Rattle.node_core.specs.Moving.{MovedView};

    ghost Value = { MovedView };

    ghost view = { λ moved. record { log = moved.log.log; waiting = moved.waiting; room = moved.log.room; places = moved.log.places } };
}

impl Moved {
    /// Which object it is.
    pub fn object(&self) -> u32
        ensures { result ≡ self.now.log.object }
    {
        self.log.number()
    }

    /// How many events it has processed.
    pub fn processed(&self) -> usize
        ensures { result ≡ length self.now.log.done }
    {
        self.log.len()
    }
}
