//! A station whose line is strict, with the events that come to it.
use event_key::{INITIAL, Key, STEPS};
use model_core::{Event, Name};
use queue_models::{Item, Kind, Network, Station};
use random_streams::Law;
use sim_spec::Terms;
use std::alloc::Global;
use std::test::Fail;

/// How far it goes.
pub const TERMS: Terms = Terms {
    end: 30,
    limit: 1_000,
};

/// A station that serves a job for 4 ticks, has room for one more, and fails where a third one comes. Who is served comes back
/// to it.
pub fn station(alloc: Global) -> Result<Network, Fail> {
    let station = Station {
        servers: 1,
        line: 1,
        service: Law::Fixed { value: 4 },
        strict: true,
        next: 0,
    };
    let name = Name::new(vec![in alloc; b's']?);
    let item = Item {
        name,
        kind: Kind::Station(station),
        rank: 0,
        quiet: false,
        trace: false,
    };
    Ok(Network::make(alloc, 0, vec![in alloc; item]?, Vec::new(alloc))?)
}

/// Job 1 arrives at 5.
pub const JOB_1: Event = Event {
    key: Key {
        stamp: 5 * STEPS,
        rank: 0,
        dest: 0,
        src: INITIAL,
        serial: 0,
    },
    kind: 3,
    a: 1,
    b: 5,
};

/// Job 2 arrives at 10.
pub const JOB_2: Event = Event {
    key: Key {
        stamp: 10 * STEPS,
        rank: 0,
        dest: 0,
        src: INITIAL,
        serial: 1,
    },
    kind: 3,
    a: 2,
    b: 10,
};

pub const KEY_3: Key = Key {
    stamp: 11 * STEPS,
    rank: 0,
    dest: 0,
    src: INITIAL,
    serial: 2,
};

/// Job 3 arrives at 11.
pub const JOB_3: Event = Event {
    key: KEY_3,
    kind: 3,
    a: 3,
    b: 11,
};

pub const FIRST_DONE_KEY: Key = Key {
    stamp: 9 * STEPS,
    rank: 0,
    dest: 0,
    src: 0,
    serial: 0,
};

/// The service of job 1 is over: the first event that the station sends.
pub const FIRST_DONE: Event = Event {
    key: FIRST_DONE_KEY,
    kind: 2,
    a: 1,
    b: 5,
};
