//! Events of one tick are put in order by words that stand for them, since a word is moved and compared in one instruction.
//! The events themselves stay where they are: in the end each word is the place of its event.
ghost use Rattle.std.specs.Prelude.{◌≡◌, ◌<◌, ◌≤◌, ◌%◌, length, map, OnOk};
ghost use Rattle.std.specs.Bool.{OnTrue};
ghost use Rattle.std.specs.List.{AllByRecursion, range_with_len};
ghost use Rattle.key_order.specs.Keys.{KeysDiffer};
ghost use Rattle.key_order.specs.Pending.{in_order};
ghost use Rattle.tick_queue.specs.Order.{HaveWords, place_at, event_at, shown, AreInside, AreUnturned, Shows};

use delta_exchange::OutOfMemory;
use model_core::Event;

/// So few events are sorted themselves.
const FEW: usize = 4;

/// So many events have words at most: a tick that has more is rare. A place has 14 bits.
const MOST: usize = 16_384;

/// A word for an event, with its place in the lowest 14 bits. The others are a rank, a destination, a source and the last bits
/// of a serial, as far as these fit, so most words are in the order of their events. Without the serial those that one object
/// sends to another at one time, as gates do, would be in the order in which they were put into their slots.
fn word_of(event: &Event, place: u64) -> u64
    requires { place < 16384 }
    ensures { result % 16384 ≡ place }
{
    let rank = u64::from(event.key.rank) % 256;
    let dest = u64::from(event.key.dest) % 65_536;
    let src = u64::from(event.key.src) % 65_536;
    let serial = event.key.serial % 1_024;
    (((rank * 65_536 + dest) * 65_536 + src) * 1_024 + serial) * 16_384 + place
}

/// Makes the words of events.
fn put_words(words: &mut Vec<u64>, events: &Vec<Event>) -> Result<(), OutOfMemory>
    requires { length events.now.items ≤ 16384 }
    ensures { OnOk result (HaveWords events.now.items words.new.items) }
{
    words.clear();
    words.reserve(events.len())?;
    for i in 0..events.len() {
        words.push_reserved(word_of(&events[i], i as u64));
    }
    Ok(())
}

/// Leaves of each word its place.
fn keep_places(words: &mut Vec<u64>)
    ensures { words.new.items ≡ map place_at words.old.items }
{
    for word in words.iter_mut() {
        *word %= 16_384;
    }
}

/// The places of so many events, from the first one on.
#[inline(always)]
fn number(places: &mut Vec<u64>, events: usize) -> Result<(), OutOfMemory>
    ensures { OnOk result (places.new.items ≡ map (λ k. k) (range_with_len 0 events)) }
{
    places.clear();
    places.reserve(events)?;
    for i in 0..events {
        places.push_reserved(i as u64);
    }
    Ok(())
}

/// The event at one of the places.
#[inline(always)]
pub fn event_of<'a>(events: &'a Vec<Event>, places: &Vec<u64>, i: usize) -> &'a Event
    requires inside { AreInside events.now.items places.now.items }
    requires exists { i < length places.now.items }
    ensures { result.now ≡ event_at (shown events.now.items places.now.items) i }
{
    &events[places[i] as usize]
}

/// Whether no event comes before the one ahead of it.
fn is_in_order(events: &Vec<Event>, places: &Vec<u64>) -> bool
    requires { AreInside events.now.items places.now.items }
    ensures { OnTrue result (AreUnturned (shown events.now.items places.now.items)) }
{
    for i in 1..places.len() {
        let before = event_of(events, places, i - 1);
        if event_of(events, places, i).key.is_before(&before.key) {
            return false;
        }
    }
    true
}

/// Sorts the events themselves by their keys.
fn sort_events(events: &mut Vec<Event>, places: &mut Vec<u64>) -> Result<(), OutOfMemory>
    requires { KeysDiffer events.old.items }
    ensures { OnOk result (Shows events.new.items places.new.items (in_order events.old.items)) }
{
    events.sort_unstable_by_key(|event| event.key);
    number(places, events.len())
}

/// Puts the places of events into the order of their keys.
pub fn sort(events: &mut Vec<Event>, places: &mut Vec<u64>) -> Result<(), OutOfMemory>
    requires { KeysDiffer events.old.items }
    ensures { OnOk result (Shows events.new.items places.new.items (in_order events.old.items)) }
{
    if events.len() == 1 {
        return number(places, 1);
    }
    sort_many(events, places)
}

/// Puts the places of events into the order of their keys, however many they are.
#[inline(never)]
fn sort_many(events: &mut Vec<Event>, places: &mut Vec<u64>) -> Result<(), OutOfMemory>
    requires { KeysDiffer events.old.items }
    ensures { OnOk result (Shows events.new.items places.new.items (in_order events.old.items)) }
{
    if events.len() <= FEW || events.len() > MOST {
        return sort_events(events, places);
    }
    put_words(places, events)?;
    places.sort_unstable();
    keep_places(places);
    // words that leave out what doesn't fit may be in another order
    if is_in_order(events, places) {
        return Ok(());
    }
    sort_events(events, places)
}
