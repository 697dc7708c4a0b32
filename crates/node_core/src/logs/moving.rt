//! Objects that come and go with their logs.
ghost use Rattle.std.specs.Prelude.{◌≡◌, ◌≢◌, ◌<◌, ◌≤◌, ◌+◌, ◌^◌, ℕ, [], filter, length, not, is_some, slice_set, Some, None, true};
ghost use Rattle.std.specs.Arc.{arc_value};
ghost use Rattle.object_log.specs.EventLogs.{dones_at, is_of, slot_in, state_in};
ghost use Rattle.object_log.specs.Objects.{IsPlaced};

use super::Logs;
use crate::homes::Homes;
use event_log::{LogRoom, MovedLog, NodeLog};
use std::sync::Arc;

impl Logs {
    /// Takes an object out with all that it has processed, and has other homes, of as many objects and nodes. Takes no memory, and
    /// time linear in how many events are processed.
    pub fn take(&mut self, object: u32, homes: Arc<Homes>, room: LogRoom) -> MovedLog
        requires here { is_some (state_in self.old.log.objects object) ≡ true }
        requires nodes { (arc_value homes).nodes ≡ self.old.homes.nodes }
        requires objects { length (arc_value homes).homes ≡ length self.old.homes.homes }
        requires room { length (dones_at object self.old.log.done) ≤ room.events }
        ensures log { slot_in self.old.log object ≡ Some result.log }
        ensures gone { state_in self.new.log.objects object ≡ None }
        ensures others { (other : ℕ) → other ≢ object → state_in self.new.log.objects other ≡ state_in self.old.log.objects other }
        ensures done { self.new.log.done ≡ filter (λ d. not (is_of object d)) self.old.log.done }
        ensures homes { self.new.homes ≡ arc_value homes }
        ensures room { result.room ≡ room.events }
        ensures places { result.places ≡ room.places }
    {
        let place = self.places[object as usize];
        let moved = self.log.take(place, object, room);
        note_place(&self.log, place, &mut self.places);
        self.homes = homes;
        moved
    }

    /// Puts an object in, which isn't here, with all that it has processed, and has other homes, of as many objects and nodes. Takes
    /// no memory, and time linear in how many events are processed.
    pub fn put(&mut self, moved: MovedLog, homes: Arc<Homes>)
        requires away { state_in self.old.log.objects moved.log.object ≡ None }
        requires inside { moved.log.object < length self.old.homes.homes }
        requires nodes { (arc_value homes).nodes ≡ self.old.homes.nodes }
        requires objects { length (arc_value homes).homes ≡ length self.old.homes.homes }
        requires room { length self.old.log.done + length moved.log.done ≤ moved.room }
        requires places { length self.old.homes.homes ≤ moved.places }
        requires few { length self.old.log.done + length moved.log.done < 2 ^ 60 }
        ensures slot { slot_in self.new.log moved.log.object ≡ Some moved.log }
        ensures states { (other : ℕ) → other ≢ moved.log.object → state_in self.new.log.objects other ≡ state_in self.old.log.objects other }
        ensures dones { (other : ℕ) → other ≢ moved.log.object → dones_at other self.new.log.done ≡ dones_at other self.old.log.done }
        ensures count { length self.new.log.done ≡ length self.old.log.done + length moved.log.done }
        ensures homes { self.new.homes ≡ arc_value homes }
    {
        self.log.tells();
        let _few = self.homes.objects();
        let object = moved.number();
        self.places[object as usize] = self.log.objects() as u32;
        self.log.put(moved);
        self.homes = homes;
    }
}

/// The object that stands at a place, if one does, is known to stand there.
fn note_place(log: &NodeLog, place: u32, places: &mut Vec<u32>)
    requires { (number : ℕ) → IsPlaced log.now.log place number → number < length places.old.items }
    ensures some { (number : ℕ) → IsPlaced log.now.log place number → places.new.items ≡ slice_set places.old.items number place }
    ensures none { length log.now.log.objects ≤ place → places.new.items ≡ places.old.items }
{
    if let Some(number) = log.number_at(place) {
        places[number as usize] = place;
    }
}
