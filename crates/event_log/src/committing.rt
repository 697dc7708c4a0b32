//! What is due leaves: it is told of in the order of the keys, and its messages go to the chains of their homes.
ghost use Rattle.std.specs.Prelude.{◌≡◌, ℕ, ◌<◌, ◌≤◌, ◌+◌, ◌^◌, ◌++◌, length, take, drop, filter, slice_index, None};
ghost use Rattle.std.specs.List.{AllByRecursion};
ghost use Rattle.key_order.specs.Ascending.{Ascends};
ghost use Rattle.key_order.specs.Keys.{times};
ghost use Rattle.object_log.specs.Carrying.{placed_key};
ghost use Rattle.object_log.specs.Flat.{goes_to};
ghost use Rattle.object_log.specs.Logs.{fault_of, held_of};
ghost use Rattle.object_log.specs.Parts.{due_of, left_of};
ghost use Rattle.object_log.specs.Tellings.{told_all};
ghost use Rattle.object_log.specs.Weave.{weave};
ghost use Rattle.object_log.specs.Whole.{dones_in};
ghost use Rattle.event_log.specs.Committing.{TellsAmong, TellsBefore, told_key};
ghost use Rattle.event_log.specs.Outboxes.{chain_at};

use crate::carried::Carried;
use event_chain::{CellPool, Chain};
use event_key::Key;
use model_core::{Event, Note, RecordBuffer};
use object_log::{Released, Verdict, is_due_at};

/// How many carried events are due, which are the first ones. It looks at each of them, and at the next one.
pub fn due_in(carried: &Carried, horizon: u64, cut: &Option<Key>) -> usize
    ensures within { result ≤ length carried.now.items }
    ensures taken { take result (dones_in carried.now.items) ≡ due_of horizon cut.now (dones_in carried.now.items) }
    ensures left { drop result (dones_in carried.now.items) ≡ left_of horizon cut.now (dones_in carried.now.items) }
{
    carried.tells();
    let len = carried.len();
    for place in 0..len {
        let (key, _place) = carried.at(place);
        if !is_due_at(horizon, cut, &key) {
            return place;
        }
    }
    len
}

/// Commits the first carried events, so many, and tells of them and of the first of the news, so many likewise, in the order of
/// their keys. The messages of the carried ones go behind those in the chains of their homes. Takes no memory, and a step for
/// each of the events and messages.
pub fn commit_first(
    news: &RecordBuffer,
    count: usize,
    carried: &mut Carried,
    due: usize,
    cells: &mut CellPool<Event>,
    homes: &[u32],
    told: &mut RecordBuffer,
    out: &mut Vec<Chain<Event>>,
)
    requires count { count ≤ length news.now.items }
    requires ordered { Ascends told_key (take count news.now.items) }
    requires due { due ≤ length carried.old.items }
    requires apart { AllByRecursion (λ p. times told_key (placed_key p) (take count news.now.items) ≡ 0) (take due carried.old.items) }
    requires went { fault_of (dones_in (take due carried.old.items)) ≡ None }
    requires room { count + due ≤ told.old.room }
    requires known { AllByRecursion (λ e. e.key.dest < length homes.now) (held_of (dones_in (take due carried.old.items))) }
    requires homes { AllByRecursion (λ home. home < length out.old.items) homes.now }
    requires few { (to : ℕ) → length (chain_at out.old.items to) + length (held_of (dones_in (take due carried.old.items))) < 2 ^ 60 }
    ensures left { carried.new.items ≡ drop due carried.old.items }
    ensures told { told.new.items ≡ told.old.items ++ weave told_key (take count news.now.items) (told_all (dones_in (take due carried.old.items))) }
    ensures sent { (to : ℕ) → chain_at out.new.items to ≡ chain_at out.old.items to ++ filter (goes_to (slice_index homes.now) to) (held_of (dones_in (take due carried.old.items))) }
    ensures long { length out.new.items ≡ length out.old.items }
{
    carried.tells();
    let mut from = 0;
    for _ in 0..due {
        let Released {
            event,
            sends,
            verdict,
        } = carried.release_first(cells);
        let Verdict::Noted(note) = verdict else {
            unreachable!()
        };
        from = tell_among(news, from, count, &event.key, &note, told);
        send_home(homes, sends, out);
    }
    tell_rest(news, from, count, told);
}

/// Tells of an event, behind those of the news from a place up to another that come before it. Answers the place of the next of
/// the news.
fn tell_among(
    news: &RecordBuffer,
    from: usize,
    count: usize,
    key: &Key,
    note: &Note,
    told: &mut RecordBuffer,
) -> usize
    requires from { from ≤ count }
    requires count { count ≤ length news.now.items }
    requires ordered { Ascends told_key (take count news.now.items) }
    requires apart { times told_key key.now (take count news.now.items) ≡ 0 }
    requires room { count + 1 ≤ told.old.room + from }
    ensures within { result ≤ count }
    ensures told { TellsAmong (key.now, note.now) (drop from (take count news.now.items)) (drop result (take count news.now.items)) told.old.items told.new.items }
    ensures room { told.new.room + result + 1 ≡ told.old.room + from }
{
    let next = tell_before(news, from, count, key, told);
    told.push_reserved(key, note);
    next
}

/// Tells of those of the news from a place up to another that come before a key. Answers the place of the next one.
fn tell_before(
    news: &RecordBuffer,
    from: usize,
    count: usize,
    key: &Key,
    told: &mut RecordBuffer,
) -> usize
    requires from { from ≤ count }
    requires count { count ≤ length news.now.items }
    requires ordered { Ascends told_key (take count news.now.items) }
    requires room { count ≤ told.old.room + from }
    ensures within { result ≤ count }
    ensures told { TellsBefore key.now (drop from (take count news.now.items)) (drop result (take count news.now.items)) told.old.items told.new.items }
    ensures room { told.new.room + result ≡ told.old.room + from }
{
    for place in from..count {
        let (at, _parts) = news.at(place);
        if !at.is_before(key) {
            return place;
        }
        told.push_from(news, place);
    }
    count
}

/// Tells of the news from a place up to another.
fn tell_rest(news: &RecordBuffer, from: usize, count: usize, told: &mut RecordBuffer)
    requires from { from ≤ count }
    requires count { count ≤ length news.now.items }
    requires room { count ≤ told.old.room + from }
    ensures { told.new.items ≡ told.old.items ++ drop from (take count news.now.items) }
{
    for place in from..count {
        told.push_from(news, place);
    }
}

/// Puts each message behind those in the chain of its home.
fn send_home(homes: &[u32], messages: Chain<Event>, out: &mut Vec<Chain<Event>>)
    requires known { AllByRecursion (λ e. e.key.dest < length homes.now) messages }
    requires homes { AllByRecursion (λ home. home < length out.old.items) homes.now }
    requires few { (to : ℕ) → length (chain_at out.old.items to) + length messages < 2 ^ 60 }
    ensures sent { (to : ℕ) → chain_at out.new.items to ≡ chain_at out.old.items to ++ filter (goes_to (slice_index homes.now) to) messages }
    ensures long { length out.new.items ≡ length out.old.items }
{
    let mut messages = messages;
    while let Some(message) = messages.pop_front() {
        let home = homes[message.get().key.dest as usize];
        out[home as usize].push_back(message);
    }
}
