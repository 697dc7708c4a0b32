//! Nodes, driven by their public calls: how far one runs ahead, what a straggler undoes, and what is counted. What is done with a
//! node is a list of acts, which one function goes through for any model: a call over a model of its own is dear to prove.
mod driven;
mod empty;
mod hops;
mod station;

use driven::Driven;
use event_key::Key;
use model_core::model::Model as SimulationModel;
use model_core::{Event, Part};
use node_core::{Committed, Step, Tallies};
use sim_spec::Terms;
use std::alloc::Global;
use std::process::Abort;
use std::test::Fail;

/// What is done with a node, and what comes of it.
#[derive(Clone, Copy)]
enum Act {
    /// An event arrives, and so many are undone.
    Receive(Event, u64),
    /// The next step processes this event, and this is the least stamp of what it sends.
    Step(Event, u64),
    /// No event can be processed.
    Idle,
    /// The node is stepped until it is idle, also after a step that was refused. So many were.
    StepToIdle(u32),
    /// Below a horizon this event alone is committed, of which this part is told. It sent this one, which arrives and undoes so many.
    Commit(u64, Event, Part, Event, u64),
    /// Nothing is committed below a horizon, for so many nodes.
    CommitNothing(u64, usize),
    /// So many events aren't below a horizon, and are undone.
    Undo(u64, u64),
    /// The least stamp that is held.
    Held(u64),
    /// The least fault.
    Faulted(Option<(Key, u32)>),
    /// The least key of all events.
    Least(Option<Key>),
    /// This event alone is processed.
    Alone(Event),
    /// What the node counted: how many events it processed, undid and committed, and how many are processed now.
    Counts(u64, u64, u64, u64),
}

/// The event that was sent to a node, if nothing but this event was committed, of which this part is told.
fn sent_alone<R: Abort>(
    rt: &R,
    committed: &mut Committed,
    event: &Event,
    told: &Part,
) -> Result<Event, Fail> {
    assert!(rt; committed.done.len() == 1);
    let (key, parts) = committed.done.at(0);
    assert!(rt; *key == event.key);
    assert!(rt; parts.len() == 1);
    assert!(rt; parts[0] == *told);
    assert!(rt; committed.out.len() == 1);
    let parcel = &mut committed.out[0];
    assert!(rt; parcel.len() == 1);
    let Some(sent) = parcel.pop_front() else {
        return Err(Fail::from("nothing was sent"));
    };
    Ok(sent.into_inner())
}

/// Whether the next step is refused, or None where no event can be processed.
fn is_refused<R: Abort, M: SimulationModel>(
    rt: &R,
    alloc: Global,
    driven: &mut Driven<M>,
) -> Option<bool> {
    match driven.step(rt, alloc) {
        Ok(Step::Idle) => None,
        step => Some(step.is_err()),
    }
}

/// Steps the node until it is idle, also after a step that was refused. Answers how many were.
fn step_to_idle<R: Abort, M: SimulationModel>(
    rt: &R,
    alloc: Global,
    driven: &mut Driven<M>,
) -> Result<u32, Fail> {
    let mut refused: u32 = 0;
    for _ in 0..10 {
        let Some(is_refused) = is_refused(rt, alloc, driven) else {
            return Ok(refused);
        };
        if is_refused {
            refused = refused.saturating_add(1);
        }
    }
    Err(Fail::from("the node is never idle"))
}

/// Does what it is told, and answers whether that comes out as it is told.
fn perform<R: Abort, M: SimulationModel>(
    rt: &R,
    alloc: Global,
    driven: &mut Driven<M>,
    act: &Act,
) -> Result<bool, Fail> {
    Ok(match *act {
        Act::Receive(event, undone) => driven.receive(rt, alloc, event)? == undone,
        Act::Step(event, least) => {
            let key = event.key;
            driven.step(rt, alloc)? == Step::Did { key, least }
        }
        Act::Idle => driven.step(rt, alloc)? == Step::Idle,
        Act::StepToIdle(refused) => step_to_idle(rt, alloc, driven)? == refused,
        Act::Commit(horizon, event, told, sent, undone) => {
            let mut committed = driven.commit(rt, alloc, horizon, None)?;
            let late = sent_alone(rt, &mut committed, &event, &told)?;
            late == sent && driven.receive(rt, alloc, late)? == undone
        }
        Act::CommitNothing(horizon, nodes) => {
            let committed = driven.commit(rt, alloc, horizon, None)?;
            committed.done.is_empty() && committed.out.len() == nodes
        }
        Act::Undo(horizon, undone) => driven.undo_from(horizon) == undone,
        Act::Held(stamp) => driven.held() == stamp,
        Act::Faulted(fault) => driven.faulted() == fault,
        Act::Least(least) => driven.least() == least,
        Act::Alone(event) => {
            let keys = driven.keys(alloc)?;
            keys.as_slice() == [event.key].as_slice()
        }
        Act::Counts(processed, undone, committed, left) => {
            let counted = Tallies {
                processed,
                undone,
                committed,
                left,
            };
            driven.tallies() == counted
        }
    })
}

/// Does all that it is told, one after another.
fn perform_each<R: Abort, M: SimulationModel>(
    rt: &R,
    alloc: Global,
    driven: &mut Driven<M>,
    acts: &[Act],
) -> Result<(), Fail> {
    for act in acts {
        assert!(rt; perform(rt, alloc, driven, act)?);
    }
    Ok(())
}

/// The node with this number, of so many, does what the one list tells, and then the other.
fn perform_both<R: Abort, M: SimulationModel>(
    rt: &R,
    alloc: Global,
    model: M,
    terms: Terms,
    of: (u32, u32),
    first: &[Act],
    then: &[Act],
) -> Result<(), Fail> {
    let mut driven = Driven::new(rt, alloc, model, terms, of.0, of.1)?;
    perform_each(rt, alloc, &mut driven, first)?;
    perform_each(rt, alloc, &mut driven, then)
}
