//! Logs that run ahead and commit.
ghost use Rattle.std.specs.Prelude.{◌≡◌, true, IsTrue};
ghost use Rattle.std.specs.List.{AllByRecursion};
ghost use Rattle.event_key.specs.Keys.{key_lt};
ghost use Rattle.object_log.specs.Logs.{keys_of};

use crate::stopped::Stopped;
use event_chain::{Cell, CellPool, Chain};
use event_key::{INITIAL, Key, NO_STAMP, stamp_of, time_of};
use model_core::model::Model;
use model_core::{Effect, Event, MOST_OBJECTS, OutOfMemory};
use object_log::{Done, LogPool, ObjectLog, Released};
use phold_model::Phold;
use random_streams::Law;
use std::alloc::Global;

/// How many events were committed, and how many messages they sent.
#[derive(Clone, Copy, Debug, PartialEq, Eq)]
pub struct Count {
    pub events: u64,
    pub messages: u64,
}

/// What all logs share.
#[derive(Drop)]
struct Shared {
    sheet: Effect,
    pool: LogPool,
    // the cells of events to come
    cells: CellPool<Event>,
}

/// The model whose events draw a delay of 1 to 10 ticks and an object.
fn model_of(alloc: Global, objects: u32) -> Result<Phold, Stopped> {
    let delay = Law::Uniform { low: 1, high: 10 };
    if objects == 0 || objects > MOST_OBJECTS || !delay.is_delay() {
        return Err(Stopped::Refused);
    }
    match Phold::make(0, objects, delay, true, 0, Vec::new(alloc), 0) {
        Ok(model) => Ok(model),
        Err(OutOfMemory) => Err(Stopped::OutOfMemory),
    }
}

/// The logs of its objects.
fn logs_of(alloc: Global, model: &Phold) -> Result<Vec<ObjectLog>, Stopped> {
    let mut logs = Vec::new(alloc);
    for object in 0..model.objects() {
        let Ok(cells) = model.first_cells(alloc, object) else {
            return Err(Stopped::OutOfMemory);
        };
        let Ok(()) = logs.push(ObjectLog::new(object, cells)) else {
            return Err(Stopped::OutOfMemory);
        };
    }
    Ok(logs)
}

/// An initial event at an object.
fn event(object: u32, time: u32) -> Event {
    let key = Key {
        stamp: stamp_of(u64::from(time), 0),
        rank: 0,
        dest: object,
        src: INITIAL,
        serial: u64::from(time),
    };
    Event {
        key,
        kind: 4,
        a: 0,
        b: 0,
    }
}

/// Whether a key comes after those of the processed events.
fn is_above(log: &ObjectLog, key: &Key) -> bool
    ensures { IsTrue result → AllByRecursion (λ earlier. key_lt earlier key.now ≡ true) (keys_of log.now.done) }
{
    log.tells();
    let len = log.len();
    if len == 0 {
        return true;
    }
    let newest = log.key_at(len - 1);
    newest.is_before(key)
}

/// Fires an event at the object of a log.
fn fire(
    alloc: Global,
    model: &Phold,
    log: &mut ObjectLog,
    shared: &mut Shared,
    event: Event,
) -> Result<(), Stopped> {
    let key = event.key;
    if key.dest != log.object()
        || key.dest >= model.objects()
        || time_of(key.stamp) >= 1 << 46
        || !is_above(log, &key)
        || log.faulted().is_some()
        || log.sent() >= 1 << 40
        || log.len() >= 1 << 40
        || !model.is_lawful(key.dest, log.cells())
    {
        return Err(Stopped::Refused);
    }
    let Ok(()) = shared.cells.reserve(alloc, 1) else {
        return Err(Stopped::OutOfMemory);
    };
    let cell = shared.cells.fill(event);
    match log.process(alloc, model, &mut shared.sheet, &mut shared.pool, cell) {
        Ok(_) => Ok(()),
        Err(_) => Err(Stopped::OutOfMemory),
    }
}

/// Counts a committed event and its messages, and keeps what they leave.
fn count_one(entry: Cell<Done>, shared: &mut Shared, count: &mut Count) {
    let Released { sends, .. } = shared.pool.release(entry);
    let mut sends = sends;
    count.events = count.events.wrapping_add(1);
    while let Some(message) = sends.pop_front() {
        count.messages = count.messages.wrapping_add(1);
        shared.cells.recycle(message);
    }
}

/// Commits all that a log has processed, unless one failed.
fn commit(log: &mut ObjectLog, shared: &mut Shared, count: &mut Count) {
    if log.faulted().is_some() {
        return;
    }
    log.tells();
    let mut done = Chain::new();
    log.commit_front(NO_STAMP, None, &mut done);
    while let Some(entry) = done.pop_front() {
        count_one(entry, shared, count);
    }
}

/// Commits all that the logs have processed.
fn commit_all(logs: &mut Vec<ObjectLog>, shared: &mut Shared, count: &mut Count) {
    for log in logs.iter_mut() {
        commit(log, shared, count);
    }
}

/// Fires an event at each object.
fn fire_all(
    alloc: Global,
    model: &Phold,
    logs: &mut Vec<ObjectLog>,
    shared: &mut Shared,
    time: u32,
) -> Result<(), Stopped> {
    for log in logs.iter_mut() {
        let object = log.object();
        fire(alloc, model, log, shared, event(object, time))?;
    }
    Ok(())
}

/// Fires an event at each object in every round, and commits after each `batch` rounds and at the end.
pub fn run(alloc: Global, objects: u32, rounds: u32, batch: u32) -> Result<Count, Stopped> {
    let model = model_of(alloc, objects)?;
    let mut logs = logs_of(alloc, &model)?;
    let Ok(sheet) = Effect::new(alloc) else {
        return Err(Stopped::OutOfMemory);
    };
    let mut shared = Shared {
        sheet,
        pool: LogPool::new(),
        cells: CellPool::new(),
    };
    let mut count = Count {
        events: 0,
        messages: 0,
    };
    let batch = batch.max(1);
    for time in 0..rounds {
        fire_all(alloc, &model, &mut logs, &mut shared, time)?;
        let fired = time + 1;
        if fired % batch == 0 || fired == rounds {
            commit_all(&mut logs, &mut shared, &mut count);
        }
    }
    Ok(count)
}
