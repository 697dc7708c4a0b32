//! Carried events in the order of their keys.
ghost use Rattle.std.specs.Prelude.{◌≡◌, ℕ, List, ◌<◌, ◌≤◌, ◌+◌, [], ◌++◌, length, map, take, drop, slice_get, Some, IfSome, IfNone, OnOk, IsTrue, true, None, false};
ghost use Rattle.std.specs.List.{remove};
ghost use Rattle.std.specs.List.{AllByRecursion};
ghost use Rattle.event_key.specs.Keys.{key_lt};
ghost use Rattle.event_key.specs.declared.stamp.TheConstants.{NO_STAMP};
ghost use Rattle.key_order.specs.Ascending.{Ascends};
ghost use Rattle.key_order.specs.Stamps.{least_stamp};
ghost use Rattle.object_log.specs.Logs.{fault_of, held_of};
ghost use Rattle.model_core.specs.declared.event.Event.{Event};
ghost use Rattle.object_log.specs.Carrying.{Placed, placed_key};
ghost use Rattle.object_log.specs.Objects.{HasUndone, IsNewest};
ghost use Rattle.object_log.specs.Weave.{weave};
ghost use Rattle.event_log.specs.Items.{AreHeld, AreHeldBut, first_held, item_key, placed};
ghost use Rattle.event_log.specs.Keeping.{IsReleased, IsTakenBack};
ghost use Rattle.event_log.specs.Moves.{other_items, own_items, shifted};
ghost use Rattle.event_log.specs.Processing.{CanCarry, merged};
ghost use Rattle.event_log.specs.Turning.{IsTurned, turned_back};

use crate::items::Items;
use crate::news::News;
use crate::parting::{join_all, part, settle};
use crate::turning::carry_into;
use event_chain::{Cell, CellPool};
use event_key::{Key, NO_STAMP};
use model_core::{Event, OutOfMemory};
use object_log::{Object, Released, Verdict};
use std::alloc::Global;
use std::marker::Model;

/// Carried events of many objects, in the order of their keys, each with the place of its object. Contracts see beside them
/// for how many more there is room.
///
/// Each knows the least stamp that it and those behind it send, so that the least of all is known at the first.
#[derive(Drop)]
pub struct Carried {
    items: Items,
    // false only if none failed
    may_fail: bool,
}

impl Model for Carried {
    ghost use Rattle.std.specs.Prelude.{◌-◌, length};
    ghost use Rattle.key_order.specs.Ascending.{Ascends};
    ghost use Rattle.event_log.specs.Items.{AreHeld, CarriedView, MayFail, item_key, placed};

    ghost Value = { CarriedView };

    ghost view = { λ c. record { items = placed c.items.items; room = c.items.capacity - length c.items.items } };

    ghost invariant = { λ c. Ascends item_key c.items.items × AreHeld c.items.items × MayFail c.may_fail c.items.items };
}

impl Carried {
    /// No event, and no room.
    pub fn new(alloc: Global) -> Carried
        ensures { result.items ≡ [] }
    {
        Carried {
            items: Items::new(alloc),
            may_fail: false,
        }
    }

    /// How many there are.
    pub fn len(&self) -> usize
        ensures { result ≡ length self.now.items }
    {
        self.items.len()
    }

    /// What is true of all: they are in the order of their keys.
    pub fn tells(&self)
        ensures { Ascends placed_key self.now.items }
    {
        let _ = &self.items;
    }

    /// Makes room for so many more.
    pub fn reserve(&mut self, events: usize) -> Result<(), OutOfMemory>
        ensures ok { OnOk result (events ≤ self.new.room) }
        ensures room { self.old.room ≤ self.new.room }
        ensures same { self.new.items ≡ self.old.items }
    {
        self.items.reserve(events)
    }

    /// Carries the news from a place on. Takes no memory. Each of them is moved once, and so is each carried event that comes after
    /// the first of them; then the shorter side of the list.
    pub fn carry(
        &mut self,
        news: &mut News,
        places: &mut Vec<u32>,
        cells: &mut CellPool<Event>,
        from: usize,
    )
        requires can { CanCarry places.old.items news.old self.old cells.old }
        requires from { from ≤ length news.old.done }
        ensures same { merged news.new.done places.new.items self.new.items ≡ merged news.old.done places.old.items self.old.items }
        ensures can { CanCarry places.new.items news.new self.new cells.new }
        ensures done { news.new.done ≡ take from news.old.done }
        ensures sent { (own : List (ℕ × Event)) × (news.old.sent ≡ news.new.sent ++ own) }
        ensures nodes { news.new.nodes ≡ news.old.nodes }
    {
        self.may_fail = may_fail_with(self.may_fail, news);
        let turned = carry_into(&mut self.items, news, places, cells, from);
        turn_back(&mut self.items, turned);
    }

    /// The key of the event at a place of the list, and the place of its object.
    pub fn at(&self, index: usize) -> (Key, u32)
        requires { index < length self.now.items }
        ensures { (p : Placed) × (slice_get self.now.items index ≡ Some p) × (result.0 ≡ placed_key p) × (result.1 ≡ p.place) }
    {
        let entry = self.items.at(index);
        (entry.key, entry.place)
    }

    /// Takes the event at a place of the list out and back, at its object, which fired it last of those that it has not taken
    /// back. It moves the shorter side. If the event failed, it looks at the others up to the first that failed.
    #[inline(always)]
    pub fn undo(
        &mut self,
        index: usize,
        object: &mut Object,
        cells: &mut CellPool<Event>,
    ) -> Cell<Event>
        requires index { index < length self.old.items }
        requires newest { (p : Placed) → slice_get self.old.items index ≡ Some p → IsNewest object.old p.done }
        ensures left { self.new.items ≡ remove self.old.items index }
        ensures undone { (p : Placed) × (slice_get self.old.items index ≡ Some p) × IsTakenBack p.done object.old object.new result }
    {
        let (cell, failed) = self.items.undo(index, object, cells);
        mend(&mut self.items, index);
        if failed {
            self.may_fail = has_failed(&self.items);
        }
        cell
    }

    /// Takes the first event out, and apart.
    #[inline(always)]
    pub fn release_first(&mut self, cells: &mut CellPool<Event>) -> Released
        requires { 0 < length self.old.items }
        ensures left { self.new.items ≡ remove self.old.items 0 }
        ensures released { (p : Placed) × (slice_get self.old.items 0 ≡ Some p) × IsReleased p.done result }
    {
        self.items.release_first(cells)
    }

    /// Takes the events of an object out, and puts them into a list that has room for them. What stood at one place has another
    /// then. Each is moved twice.
    pub fn part(&mut self, object: u32, from: usize, to: u32, own: &mut Items)
        requires empty { own.old.items ≡ [] }
        requires room { length (own_items object self.old.items) ≤ own.old.capacity }
        ensures items { self.new.items ≡ map (shifted from to) (other_items object self.old.items) }
        ensures own { placed own.new.items ≡ own_items object self.old.items }
        ensures capacity { own.new.capacity ≡ own.old.capacity }
    {
        part(&mut self.items, object, own);
        settle(&mut self.items, from, to);
        self.may_fail = has_failed(&self.items);
    }

    /// Puts all into a list of others, which has room for them, and keeps that. The others stood at place 0, and stand at another
    /// now. Each event is moved a few times.
    pub fn absorb(&mut self, items: Items, to: u32)
        requires ordered { Ascends placed_key (weave placed_key self.old.items (map (shifted 0 to) (placed items.items))) }
        requires room { length self.old.items + length items.items ≤ items.capacity }
        ensures { self.new.items ≡ weave placed_key self.old.items (map (shifted 0 to) (placed items.items)) }
    {
        let mut items = items;
        settle(&mut items, 0, to);
        let turned = join_all(&mut items, &mut self.items);
        turn_back(&mut items, turned);
        self.may_fail = has_failed(&items);
        self.items = items;
    }

    /// The least key.
    pub fn first(&self) -> Option<Key>
        ensures some { IfSome result (λ key. (p : Placed) × (slice_get self.now.items 0 ≡ Some p) × (key ≡ placed_key p)) }
        ensures none { IfNone result (self.now.items ≡ []) }
    {
        if self.items.len() == 0 {
            return None;
        }
        Some(self.items.at(0).key)
    }

    /// Whether each comes before a key, in constant time.
    pub fn ends_before(&self, key: &Key) -> bool
        ensures { IsTrue result → AllByRecursion (λ p. key_lt (placed_key p) key.now ≡ true) self.now.items }
    {
        let len = self.items.len();
        if len == 0 {
            return true;
        }
        self.items.at(len - 1).key.is_before(key)
    }

    /// The least stamp that they send, or `NO_STAMP`, in constant time.
    pub fn held_least(&self) -> u64
        ensures { result ≡ least_stamp NO_STAMP (held_of (map (λ p. p.done) self.now.items)) }
    {
        held_from(&self.items, 0)
    }

    /// If it is true, none failed. In constant time.
    #[inline(always)]
    pub fn went(&self) -> bool
        ensures { IsTrue result → fault_of (map (λ p. p.done) self.now.items) ≡ None }
    {
        !self.may_fail
    }

    /// The key and the code of the first event that failed, if one did. In constant time if none did, else in time linear in how
    /// many come before it.
    pub fn faulted(&self) -> Option<(Key, u32)>
        ensures { result ≡ fault_of (map (λ p. p.done) self.now.items) }
    {
        if self.may_fail {
            fault_in(&self.items)
        } else {
            None
        }
    }
}

/// Whether one may have failed once these news are carried.
fn may_fail_with(may_fail: bool, news: &News) -> bool
    ensures { result ≡ false → (may_fail ≡ false) × (fault_of news.now.done ≡ None) }
{
    may_fail || news.faulted().is_some()
}

/// Whether one failed.
fn has_failed(items: &Items) -> bool
    ensures { result ≡ false → fault_of (map (λ p. p.done) (placed items.now.items)) ≡ None }
{
    fault_in(items).is_some()
}

/// The key and the code of the first event that failed, if one did.
fn fault_in(items: &Items) -> Option<(Key, u32)>
    ensures { result ≡ fault_of (map (λ p. p.done) (placed items.now.items)) }
{
    for place in 0..items.len() {
        match items.verdict_at(place) {
            Verdict::Noted(_) => {}
            Verdict::Failed(code) => return Some((items.at(place).key, code)),
        }
    }
    None
}

/// The least stamp that the events from this place on send, or `NO_STAMP`.
fn held_from(items: &Items, place: usize) -> u64
    ensures { result ≡ first_held (drop place items.now.items) }
{
    if place >= items.len() {
        return NO_STAMP;
    }
    items.at(place).held
}

/// Turns so many in front to the back, by the shorter way round, and mends the least stamps before them.
#[inline(always)]
fn turn_back(items: &mut Items, turned: usize)
    requires { IsTurned turned items.old.items }
    ensures ordered { Ascends item_key items.new.items }
    ensures held { AreHeld items.new.items }
    ensures same { placed items.new.items ≡ placed (turned_back turned items.old.items) }
    ensures capacity { items.new.capacity ≡ items.old.capacity }
{
    let rest = items.len() - turned;
    items.rotate_left(turned);
    mend(items, rest);
}

/// Mends the least stamps before a place, from there towards the front until one stays.
fn mend(items: &mut Items, place: usize)
    requires inside { place ≤ length items.old.items }
    requires but { AreHeldBut place items.old.items }
    ensures held { AreHeld items.new.items }
    ensures same { placed items.new.items ≡ placed items.old.items }
    ensures capacity { items.new.capacity ≡ items.old.capacity }
{
    let mut place = place;
    while place > 0 {
        let held = held_from(items, place);
        place -= 1;
        let entry = items.at(place);
        let held = entry.least.min(held);
        if held == entry.held {
            return;
        }
        items.set(place, entry.place, held);
    }
}
