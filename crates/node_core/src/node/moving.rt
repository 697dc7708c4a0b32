//! Objects go from node to node.
ghost use Rattle.std.specs.Prelude.{◌≡◌, ◌≢◌, ◌≤◌, length};
ghost use Rattle.std.specs.Arc.{arc_value};
ghost use Rattle.world_spec.specs.Share.{IsHome};
ghost use Rattle.node_core.specs.Homes.{home_of};
ghost use Rattle.node_core.specs.Moving.{AreAlikeBut, CanTakeIn, HasTakenIn, HasTakenOut};
ghost use Rattle.node_core.specs.Nodes.{home, log_at};

use super::Node;
use crate::homes::Homes;
use crate::moved::Moved;
use event_log::LogRoom;
use model_core::model::Model as SimulationModel;
use std::sync::Arc;

impl<M: SimulationModel> Node<M> {
    /// Takes an object out, with its log and the events that wait for it, and has homes under which it is elsewhere. Takes
    /// no memory. It costs a step of the queue for each event that waits at the node, whosever it is, and one of the log for each
    /// that is processed: neither keeps a list for each object.
    pub fn take_out(&mut self, object: u32, homes: Arc<Homes>, room: LogRoom) -> Moved
        requires here { IsHome (M.meaning self.old.model) (home self.old) self.old.number object }
        requires homes { AreAlikeBut object self.old.homes (arc_value homes) }
        requires goes { home_of (arc_value homes) object ≢ self.old.number }
        requires room { length (log_at self.old.logs object).done ≤ room.events }
        ensures left { HasTakenOut (M.meaning self.old.model) object (arc_value homes) self.old self.new result }
        ensures room { result.room ≡ room.events }
        ensures places { result.places ≡ room.places }
    {
        self.store.tells();
        let moved = self.store.take_out(object, homes, room);
        self.processed = self.processed.wrapping_sub(moved.processed() as u64);
        moved
    }

    /// Takes an object in, with its log and the events that wait for it, and has homes under which it is here. Takes no
    /// memory, and time linear in how many events are processed.
    pub fn take_in(&mut self, moved: Moved, homes: Arc<Homes>)
        requires { CanTakeIn (M.meaning self.old.model) (arc_value homes) self.old moved }
        ensures { HasTakenIn (arc_value homes) self.old self.new moved }
    {
        self.store.tells();
        let count = moved.processed() as u64;
        self.store.take_in(moved, homes);
        self.processed = self.processed.wrapping_add(count);
    }
}
