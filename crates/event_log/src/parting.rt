//! Carried events part by their objects, and come together again.
ghost use Rattle.std.specs.Prelude.{◌≡◌, ◌+◌, ◌≤◌, [], length, map};
ghost use Rattle.key_order.specs.Ascending.{Ascends};
ghost use Rattle.object_log.specs.Carrying.{placed_key};
ghost use Rattle.object_log.specs.Weave.{weave};
ghost use Rattle.event_log.specs.Items.{AreHeld, placed};
ghost use Rattle.event_log.specs.Moves.{other_items, own_items, place_after, shifted};
ghost use Rattle.event_log.specs.Turning.{IsTurned, turned_back};

use crate::items::Items;
use crate::turning::{join, turn_last};

/// Takes the events of an object out, and puts them into a list that has room for them, where they stand alone, at place 0. All
/// stay in their order.
pub fn part(items: &mut Items, object: u32, own: &mut Items)
    requires empty { own.old.items ≡ [] }
    requires room { length (own_items object (placed items.old.items)) ≤ own.old.capacity }
    ensures items { placed items.new.items ≡ other_items object (placed items.old.items) }
    ensures own { placed own.new.items ≡ own_items object (placed items.old.items) }
    ensures capacity { own.new.capacity ≡ own.old.capacity }
{
    for _ in 0..items.len() {
        if items.at(0).key.dest == object {
            own.push_back(items.take_out(0), 0, 0);
        } else {
            items.rotate_left(1);
        }
    }
}

/// Where an object stands once what stood at one place has another.
fn place_after(from: usize, to: u32, at: u32) -> u32
    ensures { result ≡ place_after from to at }
{
    if at as usize == from {
        return to;
    }
    at
}

/// Gives what stood at one place another, and tells each event the least stamp that it and those behind it send. Each is moved
/// once.
pub fn settle(items: &mut Items, from: usize, to: u32)
    ensures items { placed items.new.items ≡ map (shifted from to) (placed items.old.items) }
    ensures held { AreHeld items.new.items }
    ensures capacity { items.new.capacity ≡ items.old.capacity }
{
    let len = items.len();
    for settled in 0..len {
        let place = place_after(from, to, items.at(len - 1).place);
        turn_last(items, settled, place);
    }
}

/// Puts all of other events among these, which have room for them. Answers how many stand in front then.
pub fn join_all(items: &mut Items, others: &mut Items) -> usize
    requires turned { IsTurned 0 items.old.items }
    requires ordered { Ascends placed_key (weave placed_key (placed others.old.items) (placed items.old.items)) }
    requires others { Ascends placed_key (placed others.old.items) }
    requires room { length items.old.items + length others.old.items ≤ items.old.capacity }
    ensures turned { IsTurned result items.new.items }
    ensures items { placed (turned_back result items.new.items) ≡ weave placed_key (placed others.old.items) (placed items.old.items) }
    ensures capacity { items.new.capacity ≡ items.old.capacity }
{
    let mut turned = 0;
    while let Some((done, place)) = others.pop_back() {
        turned = join(items, turned, done, place);
    }
    turned
}
