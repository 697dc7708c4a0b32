//! A node with two objects of PHOLD that send to each other.
use super::{Act, perform_both};
use event_key::{INITIAL, Key, STEPS};
use model_core::{Event, Part};
use phold_model::Phold;
use random_streams::Law;
use sim_spec::Terms;
use std::alloc::Global;
use std::process::Abort;
use std::test::Fail;

/// An event of the model, at object 0 at time 0.
const FIRST: Event = Event {
    key: Key {
        stamp: 0,
        rank: 0,
        dest: 0,
        src: INITIAL,
        serial: 0,
    },
    kind: 4,
    a: 0,
    b: 0,
};

/// At object 1 at 7.
const SECOND: Event = Event {
    key: Key {
        stamp: 7 * STEPS,
        rank: 0,
        dest: 1,
        src: INITIAL,
        serial: 1,
    },
    kind: 4,
    a: 0,
    b: 0,
};

/// At object 0 at 8.
const THIRD: Event = Event {
    key: Key {
        stamp: 8 * STEPS,
        rank: 0,
        dest: 0,
        src: INITIAL,
        serial: 2,
    },
    kind: 4,
    a: 0,
    b: 0,
};

const SENT_KEY: Key = Key {
    stamp: 5 * STEPS,
    rank: 0,
    dest: 1,
    src: 0,
    serial: 0,
};

/// What object 0 sends with its event at 0.
const SENT: Event = Event {
    key: SENT_KEY,
    kind: 4,
    a: 0,
    b: 0,
};

/// What is told of that.
const TOLD: Part = Part {
    word: 1,
    a: 5,
    b: 1,
};

/// Three events come and are processed.
const AHEAD: [Act; 6] = [
    Act::Receive(FIRST, 0),
    Act::Receive(SECOND, 0),
    Act::Receive(THIRD, 0),
    Act::Step(FIRST, 5 * STEPS),
    Act::Step(SECOND, 12 * STEPS),
    Act::Step(THIRD, 13 * STEPS),
];

/// What object 0 sent at 0 comes to object 1 at 5, which has processed its event at 7. Object 0 keeps that at 8.
const STRAGGLES: [Act; 4] = [
    Act::Commit(5 * STEPS, FIRST, TOLD, SENT, 1),
    Act::Counts(3, 1, 1, 1),
    Act::Held(13 * STEPS),
    Act::Least(Some(SENT_KEY)),
];

/// The two events past the horizon go back, and the node processes them again.
const UNDOES: [Act; 3] = [
    Act::Undo(7 * STEPS, 2),
    Act::Alone(FIRST),
    Act::Step(SECOND, 12 * STEPS),
];

const TERMS: Terms = Terms {
    end: 20,
    limit: 1_000,
};

/// Two objects, whose events take 5 ticks from each to the other.
fn hops<R: Abort>(rt: &R, alloc: Global) -> Result<Phold, Fail> {
    let delay = Law::Fixed { value: 5 };
    assert!(rt; delay.is_delay());
    Ok(Phold::make(0, 2, delay, false, 0, Vec::new(alloc), 0)?)
}

#[test]
fn a_straggler_rolls_back_its_own_object_alone(rt: HostRuntime) -> Result<(), Fail> {
    let model = hops(&rt, rt.alloc())?;
    perform_both(&rt, rt.alloc(), model, TERMS, (0, 1), &AHEAD, &STRAGGLES)
}

#[test]
fn what_isnt_below_a_horizon_is_undone(rt: HostRuntime) -> Result<(), Fail> {
    let model = hops(&rt, rt.alloc())?;
    perform_both(&rt, rt.alloc(), model, TERMS, (0, 1), &AHEAD, &UNDOES)
}
