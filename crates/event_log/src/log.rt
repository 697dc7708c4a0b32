//! The log of a node.
ghost use Rattle.std.specs.Prelude.{◌≡◌, ◌≢◌, ℕ, List, ◌<◌, ◌≤◌, ◌+◌, ◌^◌, [], ◌∷◌, ◌++◌, filter, length, map, not, slice_get, IfOk, IfErr, IfSome, IfNone, OnOk, OnErr, IsTrue, Some, None, is_some, false, true, nat_lt, vec_len, vec_capacity};
ghost use Rattle.std.specs.List.{AllByRecursion};
ghost use Rattle.event_key.specs.Keys.{key_lt};
ghost use Rattle.event_key.specs.Stamps.{time_part};
ghost use Rattle.event_key.specs.declared.stamp.TheConstants.{NO_STAMP};
ghost use Rattle.model_core.specs.Meaning.{Meaning};
ghost use Rattle.key_order.specs.Stamps.{least_stamp};
ghost use Rattle.object_log.specs.EventCalls.{HasGoneBack, HasProcessed, HasUndoneFrom};
ghost use Rattle.object_log.specs.EventLogs.{ObjectView, done_key, dones_at, is_of, slot_in, state_in};
ghost use Rattle.object_log.specs.Logs.{fault_of, held_of, keys_of};
ghost use Rattle.object_log.specs.Objects.{AreSound, IsPlaced};
ghost use Rattle.object_log.specs.Parts.{due_of};
ghost use Rattle.object_log.specs.Undoings.{HasUndoneAt, IsNewestAt, LastIsFrom};
ghost use Rattle.event_log.specs.NodeLogs.{HasCommittedTo, IsCarried, IsStillCarried};
ghost use Rattle.event_log.specs.Latest.{AreBounded};
ghost use Rattle.event_log.specs.Moves.{place_after};
ghost use Rattle.event_log.specs.Outboxes.{AreBlank};
ghost use Rattle.event_log.specs.Processing.{AreHomed};

use crate::latest::Latest;
use crate::moved::{LogRoom, MovedLog, push_object};
use crate::processed::Processed;
use event_chain::{Cell, Chain};
use event_key::Key;
use model_core::model::Model as SimulationModel;
use model_core::{Cells, Effect, Event, OutOfMemory, RecordBuffer};
use object_log::Object;
use std::alloc::Global;
use std::marker::Model;

/// Objects at their places, and all that they have processed and not yet committed, in the order of the keys: what is carried
/// over the last commit, and the news, whose messages lie in the chains of their homes at once.
///
/// An event is processed in constant time if it comes behind the news. The calls that undo events, and `carry_all`, take no
/// memory: each event that is processed has made room for it to be carried.
#[derive(Drop)]
pub struct NodeLog {
    objects: Vec<Object>,
    events: Processed,
    latest: Latest,
}

impl Model for NodeLog {
    ghost use Rattle.object_log.specs.Whole.{IsEventLog};
    ghost use Rattle.event_log.specs.Latest.{AreBounded};
    ghost use Rattle.event_log.specs.NodeLogs.{NodeLogView, node_log_view};

    ghost Value = { NodeLogView };

    ghost view = { λ log. node_log_view log.objects.items log.events };

    ghost invariant = { λ log. IsEventLog log.objects.items log.events.items × AreBounded log.latest log.events.items };
}

impl NodeLog {
    /// No object. There is a chain for each home, without events.
    pub fn new(alloc: Global, chains: Vec<Chain<Event>>) -> NodeLog
        requires { AreBlank chains.items }
        ensures log { result.log ≡ record { objects = []; done = [] } }
        ensures carried { result.news ≡ [] }
        ensures chained { result.chained ≡ [] }
        ensures nodes { result.nodes ≡ length chains.items }
    {
        NodeLog {
            objects: Vec::new(alloc),
            events: Processed::new(alloc, chains),
            latest: Latest::new(alloc),
        }
    }

    /// Puts an object that isn't here behind the others. It has sent so many events.
    pub fn add(&mut self, number: u32, cells: Cells, sent: u64) -> Result<(), OutOfMemory>
        requires { state_in self.old.log.objects number ≡ None }
        ensures ok { OnOk result (self.new.log.objects ≡ self.old.log.objects ++ (record { object = number; state = record { cells = cells.contents; sent = sent } }) ∷ []) }
        ensures same { self.new ≡ record self.old { log = record self.old.log { objects = self.new.log.objects } } }
        ensures err { OnErr result (self.new ≡ self.old) }
    {
        make_place(&mut self.latest, &self.events, &mut self.objects)?;
        self.objects.push_reserved(Object::new(number, cells, sent));
        Ok(())
    }

    /// Gives the object at a place, which has processed nothing, other cells, and how many events it has sent. Takes no memory.
    pub fn set(&mut self, place: u32, object: u32, cells: Cells, sent: u64)
        requires place { IsPlaced self.old.log place object }
        requires none { dones_at object self.old.log.done ≡ [] }
        ensures state { state_in self.new.log.objects object ≡ Some (record { cells = cells.contents; sent = sent }) }
        ensures others { (other : ℕ) → other ≢ object → state_in self.new.log.objects other ≡ state_in self.old.log.objects other }
        ensures numbers { map (λ o. o.object) self.new.log.objects ≡ map (λ o. o.object) self.old.log.objects }
        ensures same { self.new ≡ record self.old { log = record self.old.log { objects = self.new.log.objects } } }
    {
        self.objects[place as usize] = Object::new(object, cells, sent);
    }

    /// How many objects there are.
    pub fn objects(&self) -> usize
        ensures { result ≡ length self.now.log.objects }
    {
        self.objects.len()
    }

    /// Which object stands at a place, if one does.
    pub fn number_at(&self, place: u32) -> Option<u32>
        ensures some { IfSome result (IsPlaced self.now.log place) }
        ensures none { IfNone result (length self.now.log.objects ≤ place) }
    {
        let object = self.objects.get(place as usize)?;
        Some(object.number())
    }

    /// The cells of the object at a place, after all that it has processed.
    pub fn cells(&self, place: u32) -> &Cells
        requires { place < length self.now.log.objects }
        ensures { (o : ObjectView) × (slice_get self.now.log.objects place ≡ Some o) × (result.now.contents ≡ o.state.cells) }
    {
        self.objects[place as usize].cells()
    }

    /// How many events the object at a place has sent, held ones among them.
    pub fn sent(&self, place: u32) -> u64
        requires { place < length self.now.log.objects }
        ensures { (o : ObjectView) × (slice_get self.now.log.objects place ≡ Some o) × (result ≡ o.state.sent) }
    {
        self.objects[place as usize].sent()
    }

    /// How many events are processed.
    pub fn len(&self) -> usize
        ensures { result ≡ length self.now.log.done }
    {
        self.events.len()
    }

    /// What is true of each log.
    pub fn tells(&self)
        ensures { AreSound self.now.log }
    {
        let _ = &self.objects;
    }

    /// The least stamp of the messages that are held, or `NO_STAMP`, in constant time.
    pub fn held_least(&self) -> u64
        ensures { result ≡ least_stamp NO_STAMP (held_of self.now.log.done) }
    {
        self.events.held_least()
    }

    /// The key and the code of the first event that failed, if one did. In constant time if no carried event did, else it looks
    /// at each carried event up to the first that failed.
    #[inline(always)]
    pub fn faulted(&self) -> Option<(Key, u32)>
        ensures { result ≡ fault_of self.now.log.done }
    {
        self.events.faulted()
    }

    /// The least key.
    pub fn first(&self) -> Option<Key>
        ensures some { IfSome result (λ key. slice_get (keys_of self.now.log.done) 0 ≡ Some key) }
        ensures none { IfNone result (self.now.log.done ≡ []) }
    {
        self.events.first()
    }

    /// Appends the keys of the processed events below a horizon, in their order, or nothing where no memory is left. It makes room
    /// for the keys of all events, and takes time linear in how many are below the horizon.
    pub fn push_below(&self, horizon: u64, into: &mut Vec<Key>) -> Result<(), OutOfMemory>
        ensures ok { OnOk result (into.new.items ≡ into.old.items ++ filter (λ k. nat_lt k.stamp horizon) (keys_of self.now.log.done)) }
        ensures err { OnErr result (into.new.items ≡ into.old.items) }
    {
        self.events.push_below(horizon, into)
    }

    /// Whether each event comes before a key, in constant time.
    pub fn ends_before(&self, key: &Key) -> bool
        ensures { IsTrue result → AllByRecursion (λ d. key_lt d.event.key key.now ≡ true) self.now.log.done }
    {
        self.events.ends_before(key)
    }

    /// Carries all that isn't carried yet. No message lies in the chain of a home then. Takes no memory, and time linear in how
    /// many come over and how many were carried.
    pub fn carry_all(&mut self)
        ensures log { self.new.log ≡ self.old.log }
        ensures carried { IsCarried self.new }
        ensures nodes { self.new.nodes ≡ self.old.nodes }
    {
        self.events.carry_all();
    }

    /// Processes an event at the object that stands at a place. Answers the least stamp that it sends, or `NO_STAMP`. What it
    /// sends goes to the homes of its destinations. The sheet is written over. If no memory is left, the event comes back.
    pub fn process<M: SimulationModel>(
        &mut self,
        alloc: Global,
        model: &M,
        homes: &[u32],
        sheet: &mut Effect,
        place: u32,
        event: Cell<Event>,
    ) -> Result<u64, (OutOfMemory, Cell<Event>)>
        requires place { IsPlaced self.old.log place event.key.dest }
        requires object { event.key.dest < (M.meaning model.now).objects }
        requires lawful { IfSome (state_in self.old.log.objects event.key.dest) (λ s. IsTrue ((M.meaning model.now).lawful event.key.dest s.cells)) }
        requires above { AllByRecursion (λ key. key_lt key event.key ≡ true) (keys_of (dones_at event.key.dest self.old.log.done)) }
        requires time { time_part event.key.stamp < 2 ^ 46 }
        requires went { fault_of (dones_at event.key.dest self.old.log.done) ≡ None }
        requires sent { IfSome (state_in self.old.log.objects event.key.dest) (λ s. s.sent < 2 ^ 60) }
        requires few { length self.old.log.done + 1 < 2 ^ 60 }
        requires known { length homes.now ≡ (M.meaning model.now).objects }
        requires homes { AllByRecursion (λ home. home < self.old.nodes) homes.now }
        ensures ok { IfOk result (λ least. HasProcessed (M.meaning model.now) self.old.log self.new.log event least) }
        ensures err { OnErr result (self.new.log ≡ self.old.log) }
        ensures back { IfErr result (λ refused. refused.1 ≡ event) }
        ensures nodes { self.new.nodes ≡ self.old.nodes }
        ensures homed { AreHomed homes.now self.old.chained → AreHomed homes.now self.new.chained }
    {
        self.latest.raise(&event.get().key);
        let object = &mut self.objects[place as usize];
        self.events
            .process(alloc, model, homes, sheet, object, place, event)
    }

    /// Undoes a carried event that is the newest of its object.
    fn undo_at(&mut self, index: usize) -> Cell<Event>
        requires carried { IsCarried self.old }
        requires newest { IsNewestAt index self.old.log }
        ensures undone { HasUndoneAt index self.old.log self.new.log result }
        ensures carried { IsStillCarried self.old self.new }
    {
        let (_key, place) = self.events.at(index);
        let object = &mut self.objects[place as usize];
        self.events.undo(index, object)
    }

    /// The key of the event at a place of the list.
    fn key_at(&self, index: usize) -> Key
        requires carried { IsCarried self.now }
        requires index { index < length self.now.log.done }
        ensures { slice_get (keys_of self.now.log.done) index ≡ Some result }
    {
        let (key, _place) = self.events.at(index);
        key
    }

    /// Undoes each event of an object that doesn't come before a key, and puts them into `into` in the order of their keys.
    /// Answers how many there were. Takes no memory, and constant time if the key's stamp is past what the object has processed,
    /// as a rule, or if all events come before the key; else all is carried, and it takes a look at each event that doesn't.
    pub fn back_to(&mut self, object: u32, key: Key, into: &mut Chain<Event>) -> u64
        requires here { is_some (state_in self.old.log.objects object) ≡ true }
        requires empty { into.old ≡ [] }
        ensures back { HasGoneBack object key self.old.log self.new.log into.new }
        ensures count { result ≡ length into.new }
        ensures carried { 0 < result → IsCarried self.new }
        ensures homed { (homes : List ℕ) → AreHomed homes self.old.chained → AreHomed homes self.new.chained }
        ensures nodes { self.new.nodes ≡ self.old.nodes }
    {
        if self.latest.of(object) < key.stamp {
            return 0;
        }
        if self.ends_before(&key) {
            return 0;
        }
        self.carry_all();
        self.go_back(object, key, into)
    }

    /// The same, where all is carried.
    fn go_back(&mut self, object: u32, key: Key, into: &mut Chain<Event>) -> u64
        requires carried { IsCarried self.old }
        requires here { is_some (state_in self.old.log.objects object) ≡ true }
        requires empty { into.old ≡ [] }
        ensures back { HasGoneBack object key self.old.log self.new.log into.new }
        ensures count { result ≡ length into.new }
        ensures carried { IsStillCarried self.old self.new }
    {
        self.tells();
        let mut count = 0;
        let mut index = self.len();
        while index > 0 {
            let at = self.key_at(index - 1);
            if at.is_before(&key) {
                return count;
            }
            index -= 1;
            if at.dest == object {
                into.push_front(self.undo_at(index));
                count += 1;
            }
        }
        count
    }

    /// Whether the last event isn't below a horizon, in constant time.
    fn last_is_from(&self, horizon: u64) -> bool
        requires { IsCarried self.now }
        ensures some { IsTrue result → LastIsFrom horizon self.now.log.done }
        ensures none { result ≡ false → AllByRecursion (λ d. nat_lt d.event.key.stamp horizon ≡ true) self.now.log.done }
    {
        let len = self.events.len();
        if len == 0 {
            return false;
        }
        let (key, _place) = self.events.at(len - 1);
        key.stamp >= horizon
    }

    /// Undoes each event that isn't below a horizon, and puts them into `into` in the order of their keys. Answers how many
    /// there were. Takes no memory.
    pub fn undo_from(&mut self, horizon: u64, into: &mut Chain<Event>) -> u64
        requires { into.old ≡ [] }
        ensures undone { HasUndoneFrom horizon self.old.log self.new.log into.new }
        ensures numbers { map (λ o. o.object) self.new.log.objects ≡ map (λ o. o.object) self.old.log.objects }
        ensures count { result ≡ length into.new }
        ensures carried { IsCarried self.new }
        ensures nodes { self.new.nodes ≡ self.old.nodes }
    {
        self.carry_all();
        self.undo_down(horizon, into)
    }

    /// The same, where all is carried.
    fn undo_down(&mut self, horizon: u64, into: &mut Chain<Event>) -> u64
        requires carried { IsCarried self.old }
        requires empty { into.old ≡ [] }
        ensures undone { HasUndoneFrom horizon self.old.log self.new.log into.new }
        ensures numbers { map (λ o. o.object) self.new.log.objects ≡ map (λ o. o.object) self.old.log.objects }
        ensures count { result ≡ length into.new }
        ensures carried { IsStillCarried self.old self.new }
    {
        self.tells();
        let mut count = 0;
        while self.last_is_from(horizon) {
            let last = self.len() - 1;
            into.push_front(self.undo_at(last));
            count += 1;
        }
        count
    }

    /// Commits each event that is due: what is told of them goes to `told` in the order of their keys, and their messages to the
    /// chains of their homes in `out`. What isn't due is carried. If all news are due and nothing carried is, which is the rule
    /// where there is one node, no event is touched. Else it takes a step for each carried event that is due, each of its
    /// messages and each of the news. If no memory is left for what is told, nothing is done.
    pub fn commit(
        &mut self,
        homes: &[u32],
        horizon: u64,
        cut: &Option<Key>,
        told: &mut RecordBuffer,
        out: &mut Vec<Chain<Event>>,
    ) -> Result<(), OutOfMemory>
        requires went { fault_of (due_of horizon cut.now self.old.log.done) ≡ None }
        requires homed { AreHomed homes.now self.old.chained }
        requires known { AllByRecursion (λ e. e.key.dest < length homes.now) (held_of (due_of horizon cut.now self.old.log.done)) }
        requires homes { AllByRecursion (λ home. home < self.old.nodes) homes.now }
        requires few { length (held_of self.old.log.done) < 2 ^ 60 }
        requires told { told.old.items ≡ [] }
        requires blank { AreBlank out.old.items }
        requires long { length out.old.items ≡ self.old.nodes }
        ensures ok { OnOk result (HasCommittedTo homes.now horizon cut.now self.old self.new told.new.items out.new.items) }
        ensures err { OnErr result (self.new ≡ self.old) }
        ensures told { OnErr result (told.new.items ≡ []) }
        ensures blank { OnErr result (AreBlank out.new.items) }
        ensures long { length out.new.items ≡ self.old.nodes }
        ensures nodes { self.new.nodes ≡ self.old.nodes }
    {
        self.events.commit(homes, horizon, cut, told, out)
    }

    /// Takes the object at a place out with all that it has processed, into room that was made for it. The last object stands at
    /// its place then. Takes no memory, and time linear in how many are processed.
    pub fn take(&mut self, place: u32, object: u32, room: LogRoom) -> MovedLog
        requires place { IsPlaced self.old.log place object }
        requires room { length (dones_at object self.old.log.done) ≤ room.events }
        ensures log { slot_in self.old.log object ≡ Some result.log }
        ensures gone { state_in self.new.log.objects object ≡ None }
        ensures others { (other : ℕ) → other ≢ object → state_in self.new.log.objects other ≡ state_in self.old.log.objects other }
        ensures done { self.new.log.done ≡ filter (λ d. not (is_of object d)) self.old.log.done }
        ensures places { (at other : ℕ) → other ≢ object → IsPlaced self.old.log at other → IsPlaced self.new.log (place_after (length self.new.log.objects) place at) other }
        ensures count { length self.new.log.objects + 1 ≡ length self.old.log.objects }
        ensures carried { IsCarried self.new }
        ensures nodes { self.new.nodes ≡ self.old.nodes }
        ensures room { result.room ≡ room.events }
        ensures places_room { result.places ≡ room.places }
    {
        let events = &mut self.events;
        events.carry_all();
        let (objects, mut own) = room.into_lists();
        let last = self.objects.len() - 1;
        events.part(object, last, place, &mut own);
        let object = self.objects.swap_remove(place as usize);
        MovedLog::new(object, own, objects)
    }

    /// Puts an object in, which isn't here, behind the others, with all that it has processed. Takes no memory, and time linear in
    /// how many are processed.
    pub fn put(&mut self, moved: MovedLog)
        requires away { state_in self.old.log.objects moved.log.object ≡ None }
        requires room { length self.old.log.done + length moved.log.done ≤ moved.room }
        requires places { length self.old.log.objects + 1 ≤ moved.places }
        requires few { length self.old.log.done + length moved.log.done < 2 ^ 60 }
        requires numbered { length self.old.log.objects < 2 ^ 32 }
        ensures slot { slot_in self.new.log moved.log.object ≡ Some moved.log }
        ensures objects { self.new.log.objects ≡ self.old.log.objects ++ (record { object = moved.log.object; state = moved.log.state }) ∷ [] }
        ensures others { (other : ℕ) → other ≢ moved.log.object → dones_at other self.new.log.done ≡ dones_at other self.old.log.done }
        ensures count { length self.new.log.done ≡ length self.old.log.done + length moved.log.done }
        ensures carried { IsCarried self.new }
        ensures nodes { self.new.nodes ≡ self.old.nodes }
    {
        let events = &mut self.events;
        events.carry_all();
        let place = self.objects.len() as u32;
        let (object, own, room) = moved.into_parts();
        self.latest.raise_all(&own);
        events.absorb(own, place);
        push_object(&mut self.objects, room, object);
    }
}

/// Makes room for one object more, and a table of bounds if there is none, where nothing is processed.
fn make_place(
    latest: &mut Latest,
    events: &Processed,
    objects: &mut Vec<Object>,
) -> Result<(), OutOfMemory>
    requires bounded { AreBounded latest.old events.now.items }
    ensures bounded { AreBounded latest.new events.now.items }
    ensures objects { objects.new.items ≡ objects.old.items }
    ensures room { OnOk result (vec_len objects.new + 1 ≤ vec_capacity objects.new) }
{
    if events.first().is_none() {
        latest.begin()?;
    }
    objects.reserve(1)?;
    Ok(())
}
