//! News go among carried events, the last one first.
ghost use Rattle.std.specs.Prelude.{◌≡◌, ℕ, List, ◌<◌, ◌≤◌, ◌+◌, ◌^◌, [], ◌∷◌, ◌++◌, length, take, drop, true};
ghost use Rattle.std.specs.List.{AllByRecursion};
ghost use Rattle.event_key.specs.declared.key.Key.{Key};
ghost use Rattle.event_key.specs.Keys.{key_lt};
ghost use Rattle.key_order.specs.Keys.{times};
ghost use Rattle.model_core.specs.declared.event.Event.{Event};
ghost use Rattle.object_log.specs.Carrying.{placed_key};
ghost use Rattle.object_log.specs.Flat.{zeros};
ghost use Rattle.object_log.specs.Weave.{insert};
ghost use Rattle.event_log.specs.Items.{IsHeld, Item, first_held, item_key, placed, placed_of};
ghost use Rattle.event_log.specs.Popping.{HasPopped};
ghost use Rattle.event_log.specs.Processing.{CanCarry, merged};
ghost use Rattle.event_log.specs.Turning.{AreAfter, HasPutLast, HasTurnedLast, IsTurned, turned_back, turned_view};

use crate::items::Items;
use crate::kept::Kept;
use crate::news::News;
use event_chain::CellPool;
use event_key::{Key, NO_STAMP};
use model_core::Event;

/// Puts the news from a place on in front of carried events, in order with those of them that come after the first of the news.
/// Answers how many stand in front then. Each of these was moved once.
pub fn carry_into(
    items: &mut Items,
    news: &mut News,
    places: &mut Vec<u32>,
    cells: &mut CellPool<Event>,
    from: usize,
) -> usize
    requires turned { IsTurned 0 items.old.items }
    requires can { CanCarry places.old.items news.old (turned_view 0 items.old.items items.old.capacity) cells.old }
    requires from { from ≤ length news.old.done }
    ensures turned { IsTurned result items.new.items }
    ensures same { merged news.new.done places.new.items (placed (turned_back result items.new.items)) ≡ merged news.old.done places.old.items (placed (turned_back 0 items.old.items)) }
    ensures can { CanCarry places.new.items news.new (turned_view result items.new.items items.new.capacity) cells.new }
    ensures done { news.new.done ≡ take from news.old.done }
    ensures sent { (own : List (ℕ × Event)) × (news.old.sent ≡ news.new.sent ++ own) }
    ensures nodes { news.new.nodes ≡ news.old.nodes }
{
    news.tells();
    let mut turned = 0;
    while news.len() > from {
        let key = news.key_at(news.len() - 1);
        let place = places.pop().unwrap();
        let past = turn_past(items, turned, &key);
        put_last(items, past, news, cells, place);
        turned = past + 1;
    }
    turned
}

/// Puts an event in that comes before those in front, with the place of its object. Answers how many stand in front then.
#[inline(always)]
pub fn join(items: &mut Items, front: usize, done: Kept, place: u32) -> usize
    requires turned { IsTurned front items.old.items }
    requires after { AreAfter done.event.key front items.old.items }
    requires room { length items.old.items < items.old.capacity }
    requires new { times placed_key done.event.key (placed (turned_back front items.old.items)) ≡ 0 }
    ensures turned { IsTurned result items.new.items }
    ensures items { placed (turned_back result items.new.items) ≡ insert placed_key (record { done = done; place = place }) (placed (turned_back front items.old.items)) }
    ensures after { (key : Key) → key_lt key done.event.key ≡ true → AreAfter key result items.new.items }
    ensures capacity { items.new.capacity ≡ items.old.capacity }
    ensures long { length items.new.items ≡ length items.old.items + 1 }
{
    let key = done.key();
    let turned = turn_past(items, front, &key);
    put_first(items, turned, done, place);
    turned + 1
}

/// Moves each of the others that comes after a key to the front. Answers how many stand in front then.
#[inline(always)]
fn turn_past(items: &mut Items, front: usize, key: &Key) -> usize
    requires turned { IsTurned front items.old.items }
    requires after { AreAfter key.now front items.old.items }
    requires new { times placed_key key.now (placed (turned_back front items.old.items)) ≡ 0 }
    ensures turned { IsTurned result items.new.items }
    ensures same { placed (turned_back result items.new.items) ≡ placed (turned_back front items.old.items) }
    ensures after { AreAfter key.now result items.new.items }
    ensures others { AllByRecursion (λ (i : Item). key_lt (item_key i) key.now ≡ true) (drop result items.new.items) }
    ensures capacity { items.new.capacity ≡ items.old.capacity }
    ensures long { length items.new.items ≡ length items.old.items }
{
    let len = items.len();
    let mut turned = front;
    while turned < len {
        let last = items.at(len - 1);
        if last.key.is_before(key) {
            return turned;
        }
        turn_last(items, turned, last.place);
        turned += 1;
    }
    turned
}

/// Moves the last of all to the front, where so many stand, with the place of its object.
#[inline(always)]
pub fn turn_last(items: &mut Items, turned: usize, place: u32)
    requires within { turned < length items.old.items }
    ensures items { HasTurnedLast turned place items.old.items items.new.items }
    ensures capacity { items.new.capacity ≡ items.old.capacity }
{
    let held = held_in_front(items, turned);
    items.rotate_right();
    let held = items.at(0).least.min(held);
    items.set(0, place, held);
}

/// Puts an event before all, with the least stamp that it and so many behind it send.
#[inline(always)]
fn put_first(items: &mut Items, turned: usize, done: Kept, place: u32)
    requires within { turned ≤ length items.old.items }
    requires room { length items.old.items < items.old.capacity }
    ensures items { (put : Item) × (items.new.items ≡ put ∷ items.old.items) × (placed_of put ≡ record { done = done; place = place }) × IsHeld put (take turned items.old.items) }
    ensures few { length items.new.items < 2 ^ 64 }
    ensures capacity { items.new.capacity ≡ items.old.capacity }
{
    let held = done.least().min(held_in_front(items, turned));
    items.push_front(done, place, held);
}

/// Puts the last of the news before all, with the least stamp that it and so many behind it send.
#[inline(always)]
fn put_last(
    items: &mut Items,
    turned: usize,
    news: &mut News,
    cells: &mut CellPool<Event>,
    place: u32,
)
    requires within { turned ≤ length items.old.items }
    requires room { length items.old.items < items.old.capacity }
    requires some { 0 < length news.old.done }
    requires small { AllByRecursion (λ d. length d.undo ≤ 16) news.old.done }
    requires cells { zeros news.old.done ≤ cells.old }
    ensures put { HasPutLast turned place items.old.items items.new.items news.old news.new }
    ensures few { length items.new.items < 2 ^ 64 }
    ensures capacity { items.new.capacity ≡ items.old.capacity }
    ensures cells { zeros news.new.done ≤ cells.new }
{
    let held = held_in_front(items, turned);
    items.push_last(news, cells, place, held);
}

/// The least stamp that so many in front send, or `NO_STAMP`.
#[inline(always)]
fn held_in_front(items: &Items, turned: usize) -> u64
    requires { turned ≤ length items.now.items }
    ensures { result ≡ first_held (take turned items.now.items) }
{
    if turned == 0 {
        return NO_STAMP;
    }
    items.at(0).held
}
