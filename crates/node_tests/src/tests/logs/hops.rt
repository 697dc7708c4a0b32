//! A log of PHOLD.
use super::{Act, assert_acts};
use event_key::{INITIAL, Key, NO_STAMP, STEPS};
use model_core::{Event, Part};
use phold_model::Phold;
use random_streams::Law;
use std::alloc::Global;
use std::process::Abort;
use std::test::Fail;

/// The key of the initial event at this place, which comes to object 0 at a time.
macro_rules! key {
    ($time:literal, $place:literal) => {
        Key {
            stamp: $time * STEPS,
            rank: 0,
            dest: 0,
            src: INITIAL,
            serial: $place,
        }
    };
}

/// That event.
macro_rules! event {
    ($time:literal, $place:literal) => {
        Event {
            key: key!($time, $place),
            kind: 4,
            a: 0,
            b: 0,
        }
    };
}

/// What is told of a hop back to object 0.
macro_rules! hop {
    ($delay:literal) => {
        Part {
            word: 1,
            a: $delay,
            b: 0,
        }
    };
}

/// A log of the model of one object that draws delays of 1 to 10 ticks does this.
fn assert_hops<R: Abort>(rt: &R, alloc: Global, acts: &[Act]) -> Result<(), Fail> {
    let delay = Law::Uniform { low: 1, high: 10 };
    assert!(rt; delay.is_delay());
    let model = Phold::make(0, 1, delay, true, 0, Vec::new(alloc), 0)?;
    assert_acts(rt, alloc, model, 0, acts)
}

// By an independent ChaCha20 with seed 0, stream 0: at the places 0, 2 and 4 a delay of 1 to 10 ticks is drawn as 5, 3
// and 4, and each event reads two words.
const STRAGGLER: [Act; 7] = [
    Act::Process(event!(0, 0), 5 * STEPS),
    Act::Process(event!(2, 2), 5 * STEPS),
    Act::Back(key!(1, 1), event!(2, 2)),
    Act::Process(event!(1, 1), 4 * STEPS),
    Act::Process(event!(2, 2), 6 * STEPS),
    Act::Counts(3, 3),
    Act::Held(4 * STEPS),
];

#[test]
fn a_straggler_takes_the_draw_of_what_it_undoes(rt: HostRuntime) -> Result<(), Fail> {
    assert_hops(&rt, rt.alloc(), &STRAGGLER)
}

const COMMITS: [Act; 9] = [
    Act::Process(event!(0, 0), 5 * STEPS),
    Act::Process(event!(1, 0), 4 * STEPS),
    Act::Process(event!(2, 0), 6 * STEPS),
    Act::Commit(2 * STEPS, None),
    Act::Counts(1, 3),
    Act::Commit(4 * STEPS, Some(key!(2, 0))),
    Act::Counts(1, 3),
    Act::Told(event!(0, 0), hop!(5)),
    Act::Told(event!(1, 0), hop!(3)),
];

#[test]
fn a_commit_takes_what_is_below_the_horizon_and_the_cut(rt: HostRuntime) -> Result<(), Fail> {
    assert_hops(&rt, rt.alloc(), &COMMITS)
}

// The same draws: events 0, 1 and 2 at the times 0, 1 and 2 send to 5, 4 and 6.
const HELD: [Act; 15] = [
    Act::Process(event!(0, 0), 5 * STEPS),
    Act::Held(5 * STEPS),
    Act::Process(event!(1, 0), 4 * STEPS),
    Act::Held(4 * STEPS),
    Act::Process(event!(2, 0), 6 * STEPS),
    Act::Held(4 * STEPS),
    Act::Commit(1 * STEPS, None),
    Act::Held(4 * STEPS),
    Act::Back(key!(2, 0), event!(2, 0)),
    Act::Held(4 * STEPS),
    Act::Process(event!(2, 0), 6 * STEPS),
    Act::Commit(2 * STEPS, None),
    Act::Held(6 * STEPS),
    Act::Commit(3 * STEPS, None),
    Act::Held(NO_STAMP),
];

#[test]
fn the_least_that_is_held_follows_each_commit_and_each_undoing(
    rt: HostRuntime,
) -> Result<(), Fail> {
    assert_hops(&rt, rt.alloc(), &HELD)
}

const LEFT: [Act; 10] = [
    Act::Process(event!(0, 0), 5 * STEPS),
    Act::Process(event!(1, 0), 4 * STEPS),
    Act::Back(key!(1, 0), event!(1, 0)),
    Act::Entries(1),
    Act::Commit(1 * STEPS, None),
    Act::Told(event!(0, 0), hop!(5)),
    Act::Entries(2),
    Act::Anew,
    Act::Process(event!(0, 0), 5 * STEPS),
    Act::Entries(1),
];

#[test]
fn what_one_log_leaves_another_takes(rt: HostRuntime) -> Result<(), Fail> {
    assert_hops(&rt, rt.alloc(), &LEFT)
}

/// The last step of tick 3.
const LAST_KEY: Key = Key {
    stamp: 3 * STEPS + 65_535,
    rank: 0,
    dest: 0,
    src: INITIAL,
    serial: 0,
};

const LAST: Event = Event {
    key: LAST_KEY,
    kind: 4,
    a: 0,
    b: 0,
};

// What is sent without delay from step 65535 of a tick has no step left.
const WITHOUT_END: [Act; 4] = [
    Act::Process(LAST, NO_STAMP),
    Act::Faulted(Some((LAST_KEY, 1))),
    Act::Back(LAST_KEY, LAST),
    Act::Counts(0, 7),
];

#[test]
fn a_chain_without_end_in_a_tick_is_undone_as_any_event(rt: HostRuntime) -> Result<(), Fail> {
    let delay = Law::Fixed { value: 0 };
    assert!(rt; delay.is_delay());
    let model = Phold::make(0, 1, delay, false, 0, Vec::new(rt.alloc()), 0)?;
    assert_acts(&rt, rt.alloc(), model, 7, &WITHOUT_END)
}
