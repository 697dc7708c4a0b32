//! Logs of objects, driven by their public calls: what an object that runs ahead tells, and what a straggler undoes.
ghost use Rattle.std.specs.Prelude.{◌≡◌, true, None};
ghost use Rattle.std.specs.List.{AllByRecursion};
ghost use Rattle.event_key.specs.Keys.{key_lt};
ghost use Rattle.object_log.specs.Logs.{keys_of, fault_of};
ghost use Rattle.object_log.specs.Parts.{due_of};

mod hops;
mod station;

use event_chain::{Cell, Chain};
use event_key::{Key, time_of};
use model_core::model::Model as SimulationModel;
use model_core::{Cells, Effect, Event, Note, OutOfMemory, Part};
use object_log::{Done, LogPool, ObjectLog, Released, Verdict};
use std::alloc::Global;
use std::process::Abort;
use std::test::Fail;

/// What logs share.
#[derive(Drop)]
struct Shared {
    sheet: Effect,
    pool: LogPool,
}

/// A blank sheet, and a pool of nothing.
fn make_shared(alloc: Global) -> Result<Shared, Fail> {
    let Ok(sheet) = Effect::new(alloc) else {
        return Err(Fail::from("no memory"));
    };
    let pool = LogPool::new();
    Ok(Shared { sheet, pool })
}

/// Ends the test where a key isn't above those of the processed events.
fn assert_above<R: Abort>(rt: &R, log: &ObjectLog, key: &Key)
    ensures { AllByRecursion (λ earlier. key_lt earlier key.now ≡ true) (keys_of log.now.done) }
{
    log.tells();
    let len = log.len();
    if len == 0 {
        return;
    }
    let newest = log.key_at(len - 1);
    assert!(rt; newest.is_before(key));
}

/// Ends the test where a processed event has faulted.
fn assert_went<R: Abort>(rt: &R, log: &ObjectLog, horizon: u64, cut: Option<Key>)
    ensures { fault_of (due_of horizon cut log.now.done) ≡ None }
{
    assert!(rt; log.faulted().is_none());
}

/// Processes an event, once all that a log asks of it is seen to hold.
fn process<R: Abort, M: SimulationModel>(
    rt: &R,
    alloc: Global,
    model: &M,
    log: &mut ObjectLog,
    shared: &mut Shared,
    event: Event,
) -> Result<u64, Fail> {
    assert!(rt; log.len() < 100);
    assert_above(rt, log, &event.key);
    assert!(rt; log.faulted().is_none());
    assert!(rt; log.sent() < 100);
    assert!(rt; log.object() < model.objects());
    assert!(rt; event.key.dest == log.object());
    assert!(rt; time_of(event.key.stamp) < 1 << 46);
    assert!(rt; model.is_lawful(log.object(), log.cells()));
    let Ok(cell) = Cell::new(alloc, event) else {
        return Err(Fail::from("no memory"));
    };
    match log.process(alloc, model, &mut shared.sheet, &mut shared.pool, cell) {
        Ok(least) => Ok(least),
        Err((OutOfMemory, _)) => Err(Fail::from("no memory")),
    }
}

/// Commits what is due, once no event is seen to have faulted.
fn commit<R: Abort>(
    rt: &R,
    log: &mut ObjectLog,
    horizon: u64,
    cut: Option<Key>,
    into: &mut Chain<Done>,
) {
    assert_went(rt, log, horizon, cut);
    assert!(rt; log.len() < 100);
    assert!(rt; into.len() < 100);
    log.commit_front(horizon, cut, into);
}

/// Goes back to a key, and answers what was undone.
fn back_to(log: &mut ObjectLog, key: Key, shared: &mut Shared) -> Chain<Event> {
    let mut into = Chain::new();
    log.back_to(key, &mut shared.pool, &mut into);
    into
}

/// Takes the first committed event out, with what is told of it.
fn next_told(done: &mut Chain<Done>, shared: &mut Shared) -> Result<(Event, Verdict), Fail> {
    let first = done.pop_front().ok_or("empty")?;
    let Released { event, verdict, .. } = shared.pool.release(first);
    Ok((event, verdict))
}

/// The first cells of the first object of a model.
fn first_cells<R: Abort, M: SimulationModel>(
    rt: &R,
    alloc: Global,
    model: &M,
) -> Result<Cells, Fail> {
    assert!(rt; 0 < model.objects());
    Ok(model.first_cells(alloc, 0)?)
}

/// What is done with a log, and what comes of it.
#[derive(Clone, Copy)]
enum Act {
    /// An event is processed, and this is the least stamp of what it sends.
    Process(Event, u64),
    /// The log goes back to a key, and the first event that is undone is this one.
    Back(Key, Event),
    /// What is below a horizon and a cut is committed.
    Commit(u64, Option<Key>),
    /// So many events are committed and not taken out.
    Committed(usize),
    /// The first committed event is this one, of which this part is told.
    Told(Event, Part),
    /// The least stamp that is held.
    Held(u64),
    /// So many events are processed, and so many are sent.
    Counts(usize, u64),
    /// The event that has faulted, and its code.
    Faulted(Option<(Key, u32)>),
    /// The pool has so many entries.
    Entries(usize),
    /// Another log takes the place of the first one.
    Anew,
}

/// A log of the first object of a model, and what was committed and isn't yet taken out.
#[derive(Drop)]
struct Run<M: SimulationModel> {
    model: M,
    log: ObjectLog,
    shared: Shared,
    done: Chain<Done>,
}

impl<M: SimulationModel> Run<M> {
    /// A log of an object that has sent so many events.
    fn new<R: Abort>(rt: &R, alloc: Global, model: M, sent: u64) -> Result<Run<M>, Fail> {
        let cells = first_cells(rt, alloc, &model)?;
        Ok(Run {
            model,
            log: ObjectLog::with(0, cells, sent),
            shared: make_shared(alloc)?,
            done: Chain::new(),
        })
    }

    /// Processes an event, and answers the least stamp of what it sends.
    fn process<R: Abort>(&mut self, rt: &R, alloc: Global, event: Event) -> Result<u64, Fail> {
        let (log, shared) = (&mut self.log, &mut self.shared);
        process(rt, alloc, &self.model, log, shared, event)
    }

    /// Begins another log.
    fn begin_anew<R: Abort>(&mut self, rt: &R, alloc: Global) -> Result<(), Fail> {
        self.log = ObjectLog::new(0, first_cells(rt, alloc, &self.model)?);
        Ok(())
    }

    /// Does what it is told, and answers whether that comes out as it is told.
    fn act<R: Abort>(&mut self, rt: &R, alloc: Global, act: &Act) -> Result<bool, Fail> {
        match *act {
            Act::Process(event, least) => return Ok(self.process(rt, alloc, event)? == least),
            Act::Back(key, first) => {
                let back = back_to(&mut self.log, key, &mut self.shared);
                return Ok(back.front() == Some(&first));
            }
            Act::Commit(horizon, cut) => commit(rt, &mut self.log, horizon, cut, &mut self.done),
            Act::Committed(count) => return Ok(self.done.len() == count),
            Act::Told(event, part) => {
                let told = next_told(&mut self.done, &mut self.shared)?;
                return Ok(told == (event, Verdict::Noted(Note::of(part))));
            }
            Act::Held(stamp) => return Ok(self.log.held_least() == stamp),
            Act::Counts(processed, sent) => {
                return Ok((self.log.len(), self.log.sent()) == (processed, sent));
            }
            Act::Faulted(fault) => return Ok(self.log.faulted() == fault),
            Act::Entries(count) => return Ok(self.shared.pool.entries() == count),
            Act::Anew => self.begin_anew(rt, alloc)?,
        }
        Ok(true)
    }
}

/// With a log of the first object of a model, which has sent so many events, each of these comes out as it is told.
fn assert_acts<R: Abort, M: SimulationModel>(
    rt: &R,
    alloc: Global,
    model: M,
    sent: u64,
    acts: &[Act],
) -> Result<(), Fail> {
    let mut run = Run::new(rt, alloc, model, sent)?;
    for (place, act) in acts.iter().enumerate() {
        assert!(rt; run.act(rt, alloc, act)?, "act {place}");
    }
    Ok(())
}
