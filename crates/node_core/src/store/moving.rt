//! Objects that come and go with all that is their own.
ghost use Rattle.std.specs.Prelude.{◌≡◌, ◌≤◌, length};
ghost use Rattle.std.specs.Arc.{arc_value};
ghost use Rattle.node_core.specs.Moving.{CanCome, HasCome, HasLeft};
ghost use Rattle.node_core.specs.Nodes.{IsHere, log_at};

use super::Store;
use crate::homes::Homes;
use crate::moved::Moved;
use crate::waiting::take_events;
use event_log::LogRoom;
use std::sync::Arc;

impl Store {
    /// Takes an object out with all that is its own, and has other homes. Takes no memory, and time linear in how many events wait
    /// and are processed.
    pub fn take_out(&mut self, object: u32, homes: Arc<Homes>, room: LogRoom) -> Moved
        requires here { IsHere self.old.logs object }
        requires nodes { (arc_value homes).nodes ≡ self.old.homes.nodes }
        requires objects { length (arc_value homes).homes ≡ length self.old.homes.homes }
        requires room { length (log_at self.old.logs object).done ≤ room.events }
        ensures left { HasLeft object self.old self.new result }
        ensures homes { self.new.homes ≡ arc_value homes }
        ensures room { result.room ≡ room.events }
        ensures places { result.places ≡ room.places }
    {
        self.tells();
        self.logs.tells();
        let waiting = take_events(&mut self.queue, object);
        let log = self.logs.take(object, homes, room);
        self.logs.tells();
        Moved { log, waiting }
    }

    /// Takes an object in with all that is its own, and has other homes. Takes no memory.
    pub fn take_in(&mut self, moved: Moved, homes: Arc<Homes>)
        requires { CanCome (arc_value homes) self.old moved }
        ensures come { HasCome self.old self.new moved }
        ensures homes { self.new.homes ≡ arc_value homes }
    {
        self.tells();
        self.logs.tells();
        let Moved { log, waiting } = moved;
        self.logs.put(log, homes);
        self.logs.tells();
        self.give_back(waiting);
    }
}
