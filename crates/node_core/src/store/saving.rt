//! What the objects of a store are, put in and read out.
ghost use Rattle.std.specs.Prelude.{◌≡◌, ◌++◌, [], OnOk, OnErr};
ghost use Rattle.node_core.specs.Nodes.{IsHere, log_at};
ghost use Rattle.node_core.specs.Saves.{IsPutIn};
ghost use Rattle.node_core.specs.Stores.{IsSameStore};

use super::Store;
use crate::waiting::put_all;
use model_core::{Cells, Event, OutOfMemory};

impl Store {
    /// Gives an object that has processed nothing other cells, and how many events it has sent. Takes no memory.
    pub fn set(&mut self, object: u32, cells: Cells, sent: u64)
        requires here { IsHere self.old.logs object }
        requires none { (log_at self.old.logs object).done ≡ [] }
        ensures logs { IsPutIn object (record { object = object; state = record { cells = cells.contents; sent = sent }; done = [] }) self.old.logs self.new.logs }
        ensures rest { self.new ≡ record self.old { logs = self.new.logs } }
    {
        self.logs.tells();
        self.logs.set(object, cells, sent);
    }

    /// The cells of an object, after all that it has processed.
    pub fn cells(&self, object: u32) -> &Cells
        requires { IsHere self.now.logs object }
        ensures { result.now.contents ≡ (log_at self.now.logs object).state.cells }
    {
        self.logs.tells();
        self.logs.cells(object)
    }

    /// How many events an object has sent, held ones among them.
    pub fn sent(&self, object: u32) -> u64
        requires { IsHere self.now.logs object }
        ensures { result ≡ (log_at self.now.logs object).state.sent }
    {
        self.logs.tells();
        self.logs.sent(object)
    }

    /// Appends the events that wait, in the order of their keys, or nothing where no memory is left.
    pub fn put_waiting(&mut self, into: &mut Vec<Event>) -> Result<(), OutOfMemory>
        ensures ok { OnOk result (into.new.items ≡ into.old.items ++ self.old.waiting) }
        ensures err { OnErr result (into.new.items ≡ into.old.items) }
        ensures same { IsSameStore self.old self.new }
    {
        put_all(&mut self.queue, into)
    }
}
