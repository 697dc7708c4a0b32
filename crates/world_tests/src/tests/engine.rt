//! The engine for one thread.
use super::ring;
use event_key::Key;
use model_core::model::Model as SimulationModel;
use model_core::{Entry, Part};
use one_thread::OneThread;
use phold_model::Phold;
use random_streams::Law;
use sim_spec::{Bucket, Stop, Terms};
use std::alloc::Global;
use std::process::Abort;
use std::sync::Arc;
use std::test::Fail;

/// The next bucket of an engine that has not ended.
fn next_bucket<M: SimulationModel>(
    alloc: Global,
    engine: &mut OneThread<M>,
) -> Result<Bucket, Fail> {
    let None = engine.ended() else {
        return Err(Fail::from("the engine has ended"));
    };
    Ok(engine.bucket(alloc)?)
}

/// A stamp, an object and a part that is told there.
type Told = (u64, u32, Part);

/// What a bucket tells.
fn told(alloc: Global, bucket: &Bucket) -> Result<Vec<Told>, Fail> {
    let mut told = Vec::new(alloc);
    let records = bucket.done.as_buffer();
    for i in 0..records.len() {
        let (key, parts) = records.at(i);
        for part in parts {
            told.push((key.stamp, key.dest, *part))?;
        }
    }
    Ok(told)
}

/// The engine at the start of the ring.
fn ring_engine(alloc: Global, terms: Terms) -> Result<OneThread<Phold>, Fail> {
    let model = Arc::new(alloc, ring(alloc)?)?;
    Ok(OneThread::new(alloc, model, terms)?)
}

/// A bucket that meets no fault: what it tells, its horizon, whether the limit cuts it, and how many events are done then.
struct Wanted {
    told: &'static [Told],
    horizon: u64,
    limited: bool,
    count: u64,
}

/// Whether a bucket tells that.
fn tells(alloc: Global, bucket: &Bucket, wanted: &Wanted) -> Result<bool, Fail> {
    let told = told(alloc, bucket)?;
    Ok(
        told.as_slice() == wanted.told
            && bucket.horizon == wanted.horizon
            && bucket.fault == None
            && bucket.limited == wanted.limited,
    )
}

/// The engine does this bucket.
fn assert_bucket<R: Abort, M: SimulationModel>(
    rt: &R,
    alloc: Global,
    engine: &mut OneThread<M>,
    wanted: &Wanted,
) -> Result<(), Fail> {
    let bucket = next_bucket(alloc, engine)?;
    assert!(rt; tells(alloc, &bucket, wanted)?, "{}", wanted.count);
    assert!(rt; engine.count() == wanted.count);
    Ok(())
}

/// The ring up to tick 9 does these buckets, and stops so.
fn assert_ring<R: Abort, M: SimulationModel>(
    rt: &R,
    alloc: Global,
    engine: &mut OneThread<M>,
    buckets: &[Wanted],
    stop: Stop,
) -> Result<(), Fail> {
    assert!(rt; engine.terms().end == 9);
    assert!(rt; engine.model().objects() == 3);
    for wanted in buckets {
        assert_bucket(rt, alloc, engine, wanted)?;
    }
    assert!(rt; engine.ended() == Some(stop));
    Ok(())
}

/// Step 0 of a time has the stamp that is so many times the time.
const TICK: u64 = 65_536;

/// A hop at a time and an object, after this delay to this destination.
macro_rules! hop {
    ($time:literal, $object:literal, $delay:literal, $dest:literal) => {
        (
            $time * TICK,
            $object,
            Part {
                word: 1,
                a: $delay,
                b: $dest,
            },
        )
    };
}

const FIRST: Wanted = Wanted {
    told: &[hop!(0, 1, 5, 2)],
    horizon: 5 * TICK,
    limited: false,
    count: 1,
};

const BOTH: [Wanted; 2] = [
    FIRST,
    Wanted {
        told: &[hop!(5, 0, 5, 1), hop!(5, 2, 5, 0)],
        horizon: 10 * TICK,
        limited: false,
        count: 3,
    },
];

#[test]
fn an_event_at_the_horizon_waits(rt: HostRuntime) -> Result<(), Fail> {
    let mut engine = ring_engine(rt.alloc(), Terms { end: 9, limit: 100 })?;
    assert_ring(&rt, rt.alloc(), &mut engine, &BOTH, Stop::End)
}

/// The first bucket, and the first event of the next one.
const TWO_EVENTS: [Wanted; 2] = [
    FIRST,
    Wanted {
        told: &[hop!(5, 0, 5, 1)],
        horizon: 0,
        limited: true,
        count: 2,
    },
];

#[test]
fn the_limit_cuts_a_bucket(rt: HostRuntime) -> Result<(), Fail> {
    let mut engine = ring_engine(rt.alloc(), Terms { end: 9, limit: 2 })?;
    assert_ring(&rt, rt.alloc(), &mut engine, &TWO_EVENTS, Stop::Limit)
}

/// The event that has no step left.
const LAST_KEY: Key = Key {
    stamp: 65_535,
    rank: 0,
    dest: 0,
    src: 0,
    serial: 65_534,
};

/// Whether a bucket has so many records, this horizon and this fault.
fn is_of(bucket: &Bucket, records: usize, horizon: u64, fault: Option<(Key, u32)>) -> bool {
    bucket.done.as_buffer().len() == records && bucket.horizon == horizon && bucket.fault == fault
}

/// An object that sends to itself without delay goes through all steps of a tick.
fn do_all_steps<R: Abort, M: SimulationModel>(
    rt: &R,
    alloc: Global,
    engine: &mut OneThread<M>,
) -> Result<(), Fail> {
    for step in 0..65535 {
        let bucket = next_bucket(alloc, engine)?;
        assert!(rt; is_of(&bucket, 1, step + 1, None), "{step}");
    }
    let last = next_bucket(alloc, engine)?;
    assert!(rt; is_of(&last, 0, 0, Some((LAST_KEY, 1))));
    let stop = Stop::Fault {
        key: LAST_KEY,
        code: 1,
    };
    assert!(rt; engine.ended() == Some(stop));
    assert!(rt; engine.count() == 65535);
    Ok(())
}

#[test]
fn a_tick_has_no_step_after_the_last(rt: HostRuntime) -> Result<(), Fail> {
    let delay = Law::Fixed { value: 0 };
    assert!(rt; delay.is_delay());
    let start = vec![in rt.alloc();
        Entry {
            time: 0,
            at: 0,
            rank: 0
        },
    ]?;
    let model = Phold::make(0, 1, delay, false, 0, start, 0)?;
    let terms = Terms {
        end: 3,
        limit: 1000000,
    };
    let mut engine = OneThread::new(rt.alloc(), Arc::new(rt.alloc(), model)?, terms)?;
    do_all_steps(&rt, rt.alloc(), &mut engine)
}
