//! An object between two logs.
ghost use Rattle.std.specs.Prelude.{◌≡◌, ◌+◌, ◌<◌, ◌≤◌, ◌^◌, [], ◌∷◌, ◌++◌, length, vec_len, vec_capacity, IfOk};
ghost use Rattle.key_order.specs.Ascending.{Ascends};
ghost use Rattle.object_log.specs.EventLogs.{done_key, dones_at};
ghost use Rattle.object_log.specs.Keeping.{OnlyLastFailed};
ghost use Rattle.object_log.specs.Whole.{IsEventLog};
ghost use Rattle.event_log.specs.Items.{placed};
ghost use Rattle.event_log.specs.Moves.{moved_view};

use crate::items::Items;
use model_core::OutOfMemory;
use object_log::Object;
use std::alloc::Global;
use std::marker::Model;

/// Room that is made before an object moves: for the events that it has processed with those of the log to which it comes,
/// and for the objects there. Contracts see for how many of both.
#[derive(Drop)]
pub struct LogRoom {
    objects: Vec<Object>,
    items: Items,
}

impl Model for LogRoom {
    ghost use Rattle.std.specs.Prelude.{◌≡◌, []};
    ghost use Rattle.std.specs.Vec.{vec_capacity};
    ghost use Rattle.event_log.specs.Moves.{RoomView};

    ghost Value = { RoomView };

    ghost view = { λ r. record { places = vec_capacity r.objects; events = r.items.capacity } };

    ghost invariant = { λ r. (r.objects.items ≡ []) × (r.items.items ≡ []) };
}

impl LogRoom {
    /// Room for so many objects and events.
    pub fn new(alloc: Global, objects: usize, events: usize) -> Result<LogRoom, OutOfMemory>
        ensures places { IfOk result (λ room. objects ≤ room.places) }
        ensures events { IfOk result (λ room. events ≤ room.events) }
    {
        Ok(LogRoom {
            objects: Vec::with_capacity(alloc, objects)?,
            items: Items::with_capacity(alloc, events)?,
        })
    }

    /// The lists themselves, which are empty.
    pub(crate) fn into_lists(self) -> (Vec<Object>, Items)
        ensures objects { result.0.items ≡ [] }
        ensures items { result.1.items ≡ [] }
        ensures places { vec_capacity result.0 ≡ self.places }
        ensures events { result.1.capacity ≡ self.events }
    {
        let LogRoom { objects, items } = self;
        (objects, items)
    }
}

/// An object that has left a log, with all that it has processed and not yet committed, and the room that was made for the
/// log to which it comes.
#[derive(Drop)]
pub struct MovedLog {
    object: Object,
    items: Items,
    // none: room for those of the log to which it comes
    objects: Vec<Object>,
}

impl Model for MovedLog {
    ghost use Rattle.std.specs.Prelude.{◌≡◌, [], ◌∷◌};
    ghost use Rattle.std.specs.Vec.{vec_capacity};
    ghost use Rattle.object_log.specs.Whole.{IsEventLog};
    ghost use Rattle.event_log.specs.Items.{placed};
    ghost use Rattle.event_log.specs.Moves.{MovedLogView, moved_view};

    ghost Value = { MovedLogView };

    ghost view = { λ m. moved_view m.object (placed m.items.items) m.items.capacity (vec_capacity m.objects) };

    // it is a log of one object
    ghost invariant = { λ m. IsEventLog (m.object ∷ []) (placed m.items.items) × (m.objects.items ≡ []) };
}

impl MovedLog {
    /// An object with what it has processed, which stands alone.
    pub(crate) fn new(object: Object, items: Items, objects: Vec<Object>) -> MovedLog
        requires log { IsEventLog (object ∷ []) (placed items.items) }
        requires empty { objects.items ≡ [] }
        ensures { result ≡ moved_view object (placed items.items) items.capacity (vec_capacity objects) }
    {
        MovedLog {
            object,
            items,
            objects,
        }
    }

    /// Which object it is.
    pub fn number(&self) -> u32
        ensures { result ≡ self.now.log.object }
    {
        self.object.number()
    }

    /// How many events it has processed.
    pub fn len(&self) -> usize
        ensures { result ≡ length self.now.log.done }
    {
        self.items.len()
    }

    /// What is true of each: all events are at its object, in the order of their keys, few, and only the last one may have
    /// failed.
    pub fn tells(&self)
        ensures own { dones_at self.now.log.object self.now.log.done ≡ self.now.log.done }
        ensures ordered { Ascends done_key self.now.log.done }
        ensures last { OnlyLastFailed self.now.log.done }
        ensures few { length self.now.log.done < 2 ^ 60 }
    {
        let _ = &self.items;
    }

    /// The object, what it has processed, and the list of no objects.
    pub(crate) fn into_parts(self) -> (Object, Items, Vec<Object>)
        ensures view { self ≡ moved_view result.0 (placed result.1.items) result.1.capacity (vec_capacity result.2) }
        ensures log { IsEventLog (result.0 ∷ []) (placed result.1.items) }
        ensures empty { result.2.items ≡ [] }
    {
        let MovedLog {
            object,
            items,
            objects,
        } = self;
        (object, items, objects)
    }
}

/// Puts an object behind others. If their list is full, they all go over into the other one, which has room for them.
pub(crate) fn push_object(objects: &mut Vec<Object>, room: Vec<Object>, object: Object)
    requires empty { room.items ≡ [] }
    requires room { vec_len objects.old + 1 ≤ vec_capacity room }
    ensures { objects.new.items ≡ objects.old.items ++ object ∷ [] }
{
    if objects.len() == objects.capacity() {
        let mut room = room;
        let Ok(()) = room.append(objects) else {
            unreachable!()
        };
        *objects = room;
    }
    objects.push_reserved(object);
}
