//! What the objects of a node are, put in and read out.
ghost use Rattle.std.specs.Prelude.{◌≡◌, ◌++◌, [], IsTrue, OnOk, OnErr};
ghost use Rattle.world_spec.specs.Share.{IsHome};
ghost use Rattle.node_core.specs.Nodes.{IsAsBefore, home, log_at};
ghost use Rattle.node_core.specs.Saves.{HasObject};

use super::Node;
use model_core::model::Model as SimulationModel;
use model_core::{Cells, Event, OutOfMemory};

impl<M: SimulationModel> Node<M> {
    /// Gives an object that has processed nothing these cells, and how many events it has sent. It takes no memory.
    pub fn set_object(&mut self, object: u32, cells: Cells, sent: u64)
        requires here { IsHome (M.meaning self.old.model) (home self.old) self.old.number object }
        requires none { (log_at self.old.logs object).done ≡ [] }
        requires lawful { IsTrue ((M.meaning self.old.model).lawful object cells.contents) }
        ensures { HasObject object (record { cells = cells.contents; sent = sent }) self.old self.new }
    {
        self.store.tells();
        self.store.set(object, cells, sent);
    }

    /// The cells of an object, after all that it has processed.
    pub fn cells(&self, object: u32) -> &Cells
        requires { IsHome (M.meaning self.now.model) (home self.now) self.now.number object }
        ensures { result.now.contents ≡ (log_at self.now.logs object).state.cells }
    {
        self.store.cells(object)
    }

    /// How many events an object has sent, held ones among them.
    pub fn sent(&self, object: u32) -> u64
        requires { IsHome (M.meaning self.now.model) (home self.now) self.now.number object }
        ensures { result ≡ (log_at self.now.logs object).state.sent }
    {
        self.store.sent(object)
    }

    /// Appends the events that wait, in the order of their keys, or nothing where no memory is left.
    pub fn put_pending(&mut self, into: &mut Vec<Event>) -> Result<(), OutOfMemory>
        ensures ok { OnOk result (into.new.items ≡ into.old.items ++ self.old.waiting) }
        ensures err { OnErr result (into.new.items ≡ into.old.items) }
        ensures same { IsAsBefore self.old self.new }
    {
        self.store.put_waiting(into)
    }
}
