ghost use Rattle.std.specs.Prelude.{◌≡◌, IfOk};

use super::{Sorted, assert_act, following};
use event_key::{Key, NO_STAMP, STEPS};
use model_core::Event;
use std::alloc::Global;
use std::marker::Model;
use std::process::Abort;
use std::test::Fail;
use tick_queue::TickQueue;

/// A queue whose events are counted.
#[derive(Drop)]
struct Counted {
    queue: TickQueue,
    next: u32,
}

impl Model for Counted {
    ghost use Rattle.base_tests.specs.Serials.{HasSerialsBelow};
    ghost use Rattle.tick_queue.specs.Queues.{QueueView};

    ghost Value = { QueueView };

    ghost view = { λ counted. counted.queue };

    ghost invariant = { λ counted. HasSerialsBelow counted.next counted.queue };
}

/// An event of an object at a stamp.
fn event(stamp: u64, dest: u32, serial: u32) -> Event
    ensures src { result.key.src ≡ 0 }
    ensures serial { result.key.serial ≡ serial }
{
    Event {
        key: Key {
            stamp,
            rank: 0,
            dest,
            src: 0,
            serial: u64::from(serial),
        },
        kind: 0,
        a: 0,
        b: 0,
    }
}

impl Counted {
    fn new(alloc: Global) -> Result<Counted, Fail> {
        Ok(Counted {
            queue: TickQueue::new(alloc)?,
            next: 0,
        })
    }

    /// Pushes an event of an object at a stamp.
    fn push_to(&mut self, stamp: u64, dest: u32) -> Result<(), Fail> {
        if self.next == u32::MAX {
            return Err(Fail::from("too many events"));
        }
        self.queue.push(event(stamp, dest, self.next))?;
        self.next += 1;
        Ok(())
    }

    /// Pushes an event at a stamp.
    fn push(&mut self, stamp: u64) -> Result<(), Fail> {
        self.push_to(stamp, 0)
    }

    /// Takes the first event, and answers its key.
    fn take_key(&mut self) -> Result<Option<Key>, Fail> {
        self.queue.settle()?;
        let Some(event) = self.queue.first() else {
            return Ok(None);
        };
        let key = event.key;
        self.queue.drop_first();
        Ok(Some(key))
    }

    /// The object of the event that comes so many after the first one, if it is at hand.
    fn dest_after(&self, k: usize) -> Option<u32> {
        let event = self.queue.after_first(k)?;
        Some(event.key.dest)
    }

    /// Takes the first event, and answers its stamp.
    fn take(&mut self) -> Result<Option<u64>, Fail> {
        let Some(key) = self.take_key()? else {
            return Ok(None);
        };
        Ok(Some(key.stamp))
    }

    fn settle(&mut self) -> Result<(), Fail> {
        self.queue.settle()?;
        Ok(())
    }

    fn merge(&mut self) {
        self.queue.merge();
    }

    /// Does what it is told, and answers whether that comes out as it is told.
    fn act(&mut self, act: &Act) -> Result<bool, Fail> {
        match *act {
            Act::Push(stamp) => self.push(stamp)?,
            Act::PushTo(stamp, dest) => self.push_to(stamp, dest)?,
            Act::Settle => self.settle()?,
            Act::Merge => self.merge(),
            Act::Take(stamp) => return Ok(self.take()? == stamp),
            Act::TakeKey(key) => return Ok(self.take_key()? == Some(key)),
            Act::Fresh(stamp) => return Ok(self.queue.fresh_least() == stamp),
            Act::After(place, dest) => return Ok(self.dest_after(place) == dest),
        }
        Ok(true)
    }
}

/// What is done with a queue.
#[derive(Clone, Copy)]
enum Act {
    Push(u64),
    PushTo(u64, u32),
    Settle,
    Merge,
    /// Takes the first event, which has this stamp.
    Take(Option<u64>),
    /// Takes the first event, which has this key.
    TakeKey(Key),
    /// The least stamp of those that are fresh is this one.
    Fresh(u64),
    /// So many places behind the first event is one of this object, if it is at hand.
    After(usize, Option<u32>),
}

/// Each of these comes out as it is told.
fn assert_acts<R: Abort>(rt: &R, alloc: Global, acts: &[Act]) -> Result<(), Fail> {
    let mut counted = Counted::new(alloc)?;
    for (place, act) in acts.iter().enumerate() {
        assert_act(rt, counted.act(act)?, place);
    }
    Ok(())
}

const FRESH: [Act; 14] = [
    Act::Fresh(NO_STAMP),
    Act::Push(30 * STEPS),
    Act::Push(10 * STEPS),
    Act::Push(20 * STEPS),
    Act::Fresh(10 * STEPS),
    Act::Merge,
    Act::Fresh(NO_STAMP),
    Act::Take(Some(10 * STEPS)),
    Act::Push(10 * STEPS + 1),
    Act::Fresh(10 * STEPS + 1),
    Act::Take(Some(10 * STEPS + 1)),
    Act::Take(Some(20 * STEPS)),
    Act::Take(Some(30 * STEPS)),
    Act::Take(None),
];

#[test]
fn fresh_least_is_of_what_came_since_the_merge(rt: HostRuntime) -> Result<(), Fail> {
    assert_acts(&rt, rt.alloc(), &FRESH)
}

const BEHIND: [Act; 11] = [
    Act::After(0, None),
    Act::PushTo(10 * STEPS, 4),
    Act::PushTo(10 * STEPS, 2),
    Act::PushTo(10 * STEPS, 3),
    Act::PushTo(10 * STEPS, 1),
    Act::Push(20 * STEPS),
    Act::Take(Some(10 * STEPS)),
    Act::After(0, Some(2)),
    Act::After(1, Some(3)),
    Act::After(2, Some(4)),
    Act::After(3, None),
];

#[test]
fn those_behind_the_first_are_seen_as_far_as_they_are_at_hand(rt: HostRuntime) -> Result<(), Fail> {
    assert_acts(&rt, rt.alloc(), &BEHIND)
}

const BEFORE: [Act; 18] = [
    Act::Push(90 * STEPS + 3),
    Act::Push(90 * STEPS + 7),
    Act::Push(95 * STEPS),
    Act::Settle,
    Act::Push(90 * STEPS + 5),
    Act::Push(90 * STEPS + 1),
    Act::Push(90 * STEPS + 9),
    Act::Push(12 * STEPS),
    Act::Take(Some(12 * STEPS)),
    Act::Take(Some(90 * STEPS + 1)),
    Act::Take(Some(90 * STEPS + 3)),
    Act::Take(Some(90 * STEPS + 5)),
    Act::Take(Some(90 * STEPS + 7)),
    Act::Take(Some(90 * STEPS + 9)),
    Act::Push(2 * STEPS),
    Act::Take(Some(2 * STEPS)),
    Act::Take(Some(95 * STEPS)),
    Act::Take(None),
];

#[test]
fn an_event_before_those_at_hand_comes_first(rt: HostRuntime) -> Result<(), Fail> {
    assert_acts(&rt, rt.alloc(), &BEFORE)
}

/// Stamps at random, and the first ones taken in between and at the end: all comes in the order of a sorted list.
fn random_acts(alloc: Global) -> Result<Vec<Act>, Fail> {
    let mut acts = Vec::new(alloc);
    let mut sorted = Sorted::new(alloc);
    let mut random: u64 = 1;
    for _ in 0..1200 {
        random = following(random);
        // stamps of all lengths, so that all levels have some
        let stamp = (random | 1) >> (random % 48);
        let takes = random >> 62 == 0;
        acts.push(if takes {
            Act::Take(sorted.take())
        } else {
            Act::Push(stamp)
        })?;
        if !takes {
            sorted.push(stamp)?;
        }
    }
    for _ in 0..=1200 {
        acts.push(Act::Take(sorted.take()))?;
    }
    Ok(acts)
}

#[test]
fn events_come_in_the_order_of_a_sorted_list(rt: HostRuntime) -> Result<(), Fail> {
    let acts = random_acts(rt.alloc())?;
    assert_acts(&rt, rt.alloc(), acts.as_slice())
}

/// Sixty events of a tick, and their keys in order.
fn acts_of_a_tick(alloc: Global) -> Result<Vec<Act>, Fail> {
    let mut acts = Vec::new(alloc);
    let mut sorted = Vec::new(alloc);
    for serial in 0..60u32 {
        // at three steps and ten objects, so that some keys differ in their serials alone
        let stamp = 90 * STEPS + u64::from(serial % 3);
        let dest = serial * 7 % 10;
        acts.push(Act::PushTo(stamp, dest))?;
        sorted.push(event(stamp, dest, serial).key)?;
    }
    sorted.sort_unstable();
    for key in sorted {
        acts.push(Act::TakeKey(key))?;
    }
    acts.push(Act::Take(None))?;
    Ok(acts)
}

#[test]
fn sixty_events_of_a_tick_come_in_the_order_of_their_keys(rt: HostRuntime) -> Result<(), Fail> {
    let acts = acts_of_a_tick(rt.alloc())?;
    assert_acts(&rt, rt.alloc(), acts.as_slice())
}
