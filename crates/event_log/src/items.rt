//! Carried events, one behind another, each in a slot of its own.
ghost use Rattle.std.specs.Prelude.{◌≡◌, ◌+◌, ◌<◌, ◌≤◌, ◌^◌, [], ◌∷◌, ◌++◌, length, min, take, drop, slice_get, slice_index_or, slice_set, vec_len, vec_capacity, IfOk, IfSome, IfNone, OnOk, List, Some};
ghost use Rattle.std.specs.List.{AllByRecursion, remove};
ghost use Rattle.event_key.specs.declared.stamp.TheConstants.{NO_STAMP};
ghost use Rattle.key_order.specs.Stamps.{least_stamp};
ghost use Rattle.object_log.specs.Dones.{Done};
ghost use Rattle.object_log.specs.Flat.{zeros};
ghost use Rattle.object_log.specs.Objects.{HasUndone, IsNewest};
ghost use Rattle.event_log.specs.Items.{Item, item_before};
ghost use Rattle.event_log.specs.Keeping.{IsReleased, IsTakenBack};
ghost use Rattle.event_log.specs.Popping.{HasPopped};
ghost use Rattle.event_log.specs.Slots.{HasLaid, HasOpened, TellsOf};

use crate::contents::Contents;
use crate::entry::Entry;
use crate::kept::Kept;
use crate::news::News;
use event_chain::{Cell, CellPool};
use model_core::{Event, OutOfMemory};
use object_log::{Object, Released, Verdict};
use std::alloc::Global;
use std::collections::VecDeque;
use std::marker::Model;
use std::mem;

/// Carried events, one behind another, each with the place of its object. An event lies in a slot, where it is written and read,
/// so that what moves in the list is short. A slot that is left is used again.
#[derive(Drop)]
pub struct Items {
    entries: VecDeque<Entry, Global>,
    slots: Vec<Contents>,
    // the slots in which no event lies
    free: Vec<usize>,
}

impl Model for Items {
    ghost use Rattle.std.specs.Prelude.{◌≤◌, length, min, vec_capacity};
    ghost use Rattle.std.specs.VecDeque.{deque_capacity};
    ghost use Rattle.event_log.specs.Items.{ItemsView};
    ghost use Rattle.event_log.specs.Slots.{AreInSlots, items_view};

    ghost Value = { ItemsView };

    ghost view = { λ s. items_view s.slots.items s.entries.items (min (deque_capacity s.entries) (min (vec_capacity s.slots) (vec_capacity s.free))) };

    ghost invariant = { λ s. AreInSlots s.slots.items s.free.items s.entries.items × (length s.slots.items ≤ vec_capacity s.free) };
}

impl Items {
    /// No event, and no room.
    pub fn new(alloc: Global) -> Items
        ensures { result.items ≡ [] }
    {
        Items {
            entries: VecDeque::new(alloc),
            slots: Vec::new(alloc),
            free: Vec::new(alloc),
        }
    }

    /// No event, and room for so many.
    pub fn with_capacity(alloc: Global, events: usize) -> Result<Items, OutOfMemory>
        ensures items { IfOk result (λ items. items.items ≡ []) }
        ensures room { IfOk result (λ items. events ≤ items.capacity) }
    {
        Ok(Items {
            entries: VecDeque::with_capacity(alloc, events)?,
            slots: Vec::with_capacity(alloc, events)?,
            free: Vec::with_capacity(alloc, events)?,
        })
    }

    /// Makes room for so many more.
    pub fn reserve(&mut self, events: usize) -> Result<(), OutOfMemory>
        ensures ok { OnOk result (length self.new.items + events ≤ self.new.capacity) }
        ensures capacity { self.old.capacity ≤ self.new.capacity }
        ensures items { self.new.items ≡ self.old.items }
    {
        self.entries.reserve(events)?;
        let most = self.entries.capacity();
        self.slots.reserve(most.saturating_sub(self.slots.len()))?;
        self.free.reserve(most.saturating_sub(self.free.len()))?;
        Ok(())
    }

    /// How many there are.
    #[inline(always)]
    pub fn len(&self) -> usize
        ensures { result ≡ length self.now.items }
    {
        self.entries.len()
    }

    /// The entry of the event at a place of the list.
    #[inline(always)]
    pub fn at(&self, index: usize) -> Entry
        requires { index < length self.now.items }
        ensures { (i : Item) × (i ≡ slice_index_or self.now.items index i) × TellsOf i result }
    {
        self.entries[index]
    }

    /// What came of the event at a place of the list.
    pub fn verdict_at(&self, index: usize) -> Verdict
        requires { index < length self.now.items }
        ensures { (i : Item) × (i ≡ slice_index_or self.now.items index i) × (result ≡ i.done.verdict) }
    {
        let slot = self.entries[index].slot;
        self.slots[slot].verdict
    }

    /// Gives the event at a place of the list another place of its object and another least stamp.
    #[inline(always)]
    pub fn set(&mut self, index: usize, place: u32, held: u64)
        requires { index < length self.old.items }
        ensures items { (i : Item) × (i ≡ slice_index_or self.old.items index i) × (self.new.items ≡ slice_set self.old.items index (record { done = i.done; place = place; held = held })) }
        ensures capacity { self.new.capacity ≡ self.old.capacity }
    {
        let entry = &mut self.entries[index];
        entry.place = place;
        entry.held = held;
    }

    /// Puts the last of the news before all, with the least stamp of those behind that it has to know.
    #[inline(always)]
    pub fn push_last(&mut self, news: &mut News, cells: &mut CellPool<Event>, place: u32, held: u64)
        requires room { length self.old.items < self.old.capacity }
        requires some { 0 < length news.old.done }
        requires small { AllByRecursion (λ d. length d.undo ≤ 16) news.old.done }
        requires cells { zeros news.old.done ≤ cells.old }
        ensures put { (d : Done) × HasPopped news.old news.new d × (self.new.items ≡ item_before d place held ∷ self.old.items) }
        ensures few { length self.new.items < 2 ^ 64 }
        ensures capacity { self.new.capacity ≡ self.old.capacity }
        ensures cells { zeros news.new.done ≤ cells.new }
    {
        let slot = open_slot(&mut self.slots, &mut self.free);
        let contents = &mut self.slots[slot];
        news.pop(cells, contents);
        let key = contents.event.key;
        let least = contents.least;
        self.entries.push_front_reserved(Entry {
            key,
            place,
            slot,
            least,
            held: least.min(held),
        });
    }

    /// Puts an event before all.
    pub fn push_front(&mut self, done: Kept, place: u32, held: u64)
        requires { length self.old.items < self.old.capacity }
        ensures items { self.new.items ≡ (record { done = done; place = place; held = held }) ∷ self.old.items }
        ensures few { length self.new.items < 2 ^ 64 }
        ensures capacity { self.new.capacity ≡ self.old.capacity }
    {
        let entry = lay_in(&mut self.slots, &mut self.free, done, place, held);
        self.entries.push_front_reserved(entry);
    }

    /// Puts an event behind all.
    pub fn push_back(&mut self, done: Kept, place: u32, held: u64)
        requires { length self.old.items < self.old.capacity }
        ensures items { self.new.items ≡ self.old.items ++ (record { done = done; place = place; held = held }) ∷ [] }
        ensures capacity { self.new.capacity ≡ self.old.capacity }
    {
        let entry = lay_in(&mut self.slots, &mut self.free, done, place, held);
        self.entries.push_back_reserved(entry);
    }

    /// Takes the event at a place of the list out. It moves the shorter side of the list.
    pub fn take_out(&mut self, index: usize) -> Kept
        requires { index < length self.old.items }
        ensures items { self.new.items ≡ remove self.old.items index }
        ensures value { (i : Item) × (i ≡ slice_index_or self.old.items index i) × (result ≡ i.done) }
        ensures capacity { self.new.capacity ≡ self.old.capacity }
    {
        let Some(entry) = self.entries.remove(index) else {
            unreachable!()
        };
        let contents = mem::replace(&mut self.slots[entry.slot], Contents::new());
        self.free.push_reserved(entry.slot);
        Kept::new(contents)
    }

    /// Takes the event at a place of the list out and back, at its object, which fired it last of those that it has not taken
    /// back. It moves the shorter side of the list. Answers its cell, and whether it had failed.
    #[inline(always)]
    pub fn undo(
        &mut self,
        index: usize,
        object: &mut Object,
        cells: &mut CellPool<Event>,
    ) -> (Cell<Event>, bool)
        requires index { index < length self.old.items }
        requires newest { (i : Item) → i ≡ slice_index_or self.old.items index i → IsNewest object.old i.done }
        ensures items { self.new.items ≡ remove self.old.items index }
        ensures undone { (i : Item) × (i ≡ slice_index_or self.old.items index i) × IsTakenBack i.done object.old object.new result.0 }
        ensures capacity { self.new.capacity ≡ self.old.capacity }
    {
        let Some(entry) = self.entries.remove(index) else {
            unreachable!()
        };
        let contents = &mut self.slots[entry.slot];
        let failed = matches!(contents.verdict, Verdict::Failed(_));
        let cell = contents.undo(object, cells);
        self.free.push_reserved(entry.slot);
        (cell, failed)
    }

    /// Takes the first event out, and apart.
    #[inline(always)]
    pub fn release_first(&mut self, cells: &mut CellPool<Event>) -> Released
        requires { 0 < length self.old.items }
        ensures items { self.new.items ≡ remove self.old.items 0 }
        ensures released { (i : Item) × (i ≡ slice_index_or self.old.items 0 i) × IsReleased i.done result }
        ensures capacity { self.new.capacity ≡ self.old.capacity }
    {
        let Some(entry) = self.entries.remove(0) else {
            unreachable!()
        };
        let released = self.slots[entry.slot].release(cells);
        self.free.push_reserved(entry.slot);
        released
    }

    /// Takes the last event out, if there is one, and the place of its object.
    pub fn pop_back(&mut self) -> Option<(Kept, u32)>
        ensures some { IfSome result (λ last. (i : Item) × (self.old.items ≡ self.new.items ++ i ∷ []) × (last.0 ≡ i.done) × (last.1 ≡ i.place)) }
        ensures none { IfNone result (self.old.items ≡ []) }
        ensures capacity { self.new.capacity ≡ self.old.capacity }
    {
        let entry = self.entries.pop_back()?;
        let contents = mem::replace(&mut self.slots[entry.slot], Contents::new());
        self.free.push_reserved(entry.slot);
        Some((Kept::new(contents), entry.place))
    }

    /// Moves so many from the front to the back, by the shorter way round.
    #[inline(always)]
    pub fn rotate_left(&mut self, events: usize)
        requires { events ≤ length self.old.items }
        ensures items { self.new.items ≡ drop events self.old.items ++ take events self.old.items }
        ensures capacity { self.new.capacity ≡ self.old.capacity }
    {
        self.entries.rotate_left(events);
    }

    /// Moves the last to the front.
    #[inline(always)]
    pub fn rotate_right(&mut self)
        requires { 0 < length self.old.items }
        ensures items { (front : List Item) × (last : Item) × (self.old.items ≡ front ++ last ∷ []) × (self.new.items ≡ last ∷ front) }
        ensures capacity { self.new.capacity ≡ self.old.capacity }
    {
        self.entries.rotate_right(1);
    }
}

/// Lays an event into a slot, and answers its entry.
#[inline(always)]
fn lay_in(
    slots: &mut Vec<Contents>,
    free: &mut Vec<usize>,
    done: Kept,
    place: u32,
    held: u64,
) -> Entry
    requires within { AllByRecursion (λ slot. slot < length slots.old.items) free.old.items }
    requires room { free.old.items ≡ [] → vec_len slots.old + 1 ≤ vec_capacity slots.old }
    ensures laid { HasLaid slots.old.items free.old.items slots.new.items free.new.items result (record { done = done; place = place; held = held }) }
    ensures slots_room { vec_capacity slots.new ≡ vec_capacity slots.old }
    ensures free_room { vec_capacity free.new ≡ vec_capacity free.old }
{
    let key = done.key();
    let least = done.least();
    let slot = open_slot(slots, free);
    slots[slot] = done.into_contents();
    Entry {
        key,
        place,
        slot,
        least,
        held,
    }
}

/// Takes a slot from those that are free, or makes one if there is none.
#[inline(always)]
fn open_slot(slots: &mut Vec<Contents>, free: &mut Vec<usize>) -> usize
    requires { free.old.items ≡ [] → vec_len slots.old + 1 ≤ vec_capacity slots.old }
    ensures opened { HasOpened slots.old.items free.old.items slots.new.items free.new.items result }
    ensures slots_room { vec_capacity slots.new ≡ vec_capacity slots.old }
    ensures free_room { vec_capacity free.new ≡ vec_capacity free.old }
{
    match free.pop() {
        Some(slot) => slot,
        None => {
            slots.push_reserved(Contents::new());
            slots.len() - 1
        }
    }
}
