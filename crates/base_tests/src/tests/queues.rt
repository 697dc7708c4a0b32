ghost use Rattle.std.specs.Prelude.{◌≡◌, IfOk};

use super::{Sorted, assert_act, following};
use event_chain::{Cell, Chain};
use event_key::{Key, NO_STAMP};
use model_core::Event;
use speedes_queue::Queue;
use std::alloc::Global;
use std::marker::Model;
use std::process::Abort;
use std::test::Fail;

/// A queue whose events are counted.
#[derive(Drop)]
struct Counted {
    queue: Queue,
    next: u32,
}

impl Model for Counted {
    ghost use Rattle.speedes_queue.specs.Queues.{QueueView};
    ghost use Rattle.speedes_queue.specs.Serials.{HasSerialsBelow};

    ghost Value = { QueueView };

    ghost view = { λ counted. counted.queue };

    ghost invariant = { λ counted. HasSerialsBelow counted.next counted.queue };
}

impl Counted {
    fn new() -> Counted {
        Counted {
            queue: Queue::new(),
            next: 0,
        }
    }

    /// Makes room for so many events more.
    fn reserve(&mut self, alloc: Global, count: usize) -> Result<(), Fail> {
        self.queue.reserve(alloc, count)?;
        Ok(())
    }

    /// Pushes an event at a stamp.
    fn push(&mut self, alloc: Global, stamp: u64) -> Result<(), Fail> {
        if self.next == u32::MAX {
            return Err(Fail::from("too many events"));
        }
        let cell = cell(alloc, stamp, self.next)?;
        self.queue.reserve(alloc, 1)?;
        self.queue.push(cell);
        self.next += 1;
        Ok(())
    }

    /// The stamp of the event that is popped.
    fn pop(&mut self) -> Option<u64> {
        let cell = self.queue.pop()?;
        Some(cell.into_inner().key.stamp)
    }

    /// Does what it is told, and answers whether that comes out as it is told.
    fn act(&mut self, alloc: Global, act: &Act) -> Result<bool, Fail> {
        match *act {
            Act::Reserve(count) => self.reserve(alloc, count)?,
            Act::Push(stamp) => self.push(alloc, stamp)?,
            Act::Pop(stamp) => return Ok(self.pop() == stamp),
            Act::Fresh(stamp) => return Ok(self.queue.fresh_least() == stamp),
            Act::Holds(len) => return Ok(self.queue.len() == len),
            Act::Least(stamp) => {
                let least = self.queue.least().ok_or("empty")?;
                return Ok(least.stamp == stamp);
            }
        }
        Ok(true)
    }
}

/// What is done with a queue.
#[derive(Clone, Copy)]
enum Act {
    /// Makes room for so many events more.
    Reserve(usize),
    Push(u64),
    /// Pops the first event, which has this stamp.
    Pop(Option<u64>),
    /// The least stamp of those that are fresh is this one.
    Fresh(u64),
    /// There are so many events.
    Holds(usize),
    /// The least stamp is this one.
    Least(u64),
}

/// The cell of an event.
fn cell(alloc: Global, stamp: u64, serial: u32) -> Result<Cell<Event>, Fail>
    ensures { IfOk result (λ cell. cell.key.serial ≡ serial) }
{
    let key = Key {
        stamp,
        rank: 0,
        dest: 0,
        src: 0,
        serial: u64::from(serial),
    };
    let event = Event {
        key,
        kind: 0,
        a: 0,
        b: 0,
    };
    match Cell::new(alloc, event) {
        Ok(cell) => Ok(cell),
        Err(_) => Err(Fail::from("no memory")),
    }
}

/// Each of these comes out as it is told.
fn assert_acts<R: Abort>(rt: &R, alloc: Global, acts: &[Act]) -> Result<(), Fail> {
    let mut counted = Counted::new();
    for (place, act) in acts.iter().enumerate() {
        assert_act(rt, counted.act(alloc, act)?, place);
    }
    Ok(())
}

const FRESH: [Act; 16] = [
    Act::Reserve(4),
    Act::Push(30),
    Act::Push(10),
    Act::Push(20),
    Act::Fresh(10),
    Act::Holds(3),
    Act::Pop(Some(10)),
    Act::Fresh(NO_STAMP),
    Act::Holds(2),
    Act::Least(20),
    Act::Push(25),
    Act::Pop(Some(20)),
    Act::Fresh(25),
    Act::Pop(Some(25)),
    Act::Pop(Some(30)),
    Act::Pop(None),
];

#[test]
fn fresh_events_wait_until_the_horizon(rt: HostRuntime) -> Result<(), Fail> {
    assert_acts(&rt, rt.alloc(), &FRESH)
}

/// Stamps at random, and the first ones popped in between: all comes in the order of a sorted list.
fn random_acts(alloc: Global) -> Result<Vec<Act>, Fail> {
    let mut acts = Vec::new(alloc);
    let mut sorted = Sorted::new(alloc);
    let mut random: u64 = 1;
    for _ in 0..600 {
        random = following(random);
        let stamp = random >> 54;
        let pops = stamp % 3 == 0;
        acts.push(if pops {
            Act::Pop(sorted.take())
        } else {
            Act::Push(stamp)
        })?;
        if !pops {
            sorted.push(stamp)?;
        }
        acts.push(Act::Holds(sorted.len()))?;
    }
    Ok(acts)
}

#[test]
fn events_come_in_the_order_of_a_sorted_list(rt: HostRuntime) -> Result<(), Fail> {
    let acts = random_acts(rt.alloc())?;
    assert_acts(&rt, rt.alloc(), acts.as_slice())
}

/// Of a queue that has merged its events the first one is popped and given back.
#[tactic(auto, unfolding(key_order::specs::Ascending::Ascends))]
fn pop_and_give_back<R: Abort>(rt: &R, queue: &mut Queue) -> Result<(), Fail> {
    queue.merge();
    assert!(rt; queue.fresh_least() == NO_STAMP);
    let first = queue.pop().ok_or("empty")?;
    assert!(rt; queue.len() < 9);
    let mut chain = Chain::new();
    chain.push_back(first);
    queue.give_back(chain);
    Ok(())
}

/// A queue has events at these stamps alone, which are popped in this order.
fn assert_stamps<R: Abort>(rt: &R, queue: &mut Queue, stamps: &[u64]) -> Result<(), Fail> {
    assert!(rt; queue.len() == stamps.len());
    for stamp in stamps {
        let cell = queue.pop().ok_or("empty")?;
        assert!(rt; cell.into_inner().key.stamp == *stamp);
    }
    Ok(())
}

#[test]
fn what_is_given_back_comes_again(rt: HostRuntime) -> Result<(), Fail> {
    let mut counted = Counted::new();
    for stamp in [30, 10, 20] {
        counted.push(rt.alloc(), stamp)?;
    }
    let Counted { mut queue, .. } = counted;
    pop_and_give_back(&rt, &mut queue)?;
    assert_stamps(&rt, &mut queue, &[10, 20, 30])
}
