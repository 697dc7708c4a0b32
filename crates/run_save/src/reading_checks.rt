//! What a simulation asks of a state, line by line of its text.
ghost use Rattle.std.specs.Prelude.{◌≡◌, ◌<◌, ◌≤◌, length};
ghost use Rattle.model_core.specs.declared.limits.TheConstants.{MOST_EVENTS};
ghost use Rattle.run_save.specs.Checks.{Gives};
ghost use Rattle.run_save.specs.LawfulChecks.{objects_check, is_sent, has_source, is_sound, events_check, events_line, lawful_check};

use crate::refusal::{StateCause, StateRefusal};
use event_key::{INITIAL, Key, MOST_RANK};
use model_core::Event;
use model_core::model::Model;
use sim_spec::{ObjectState, Terms};

/// How many events may be pending before any is done.
const MOST_AT_START: u64 = 400_000;

/// How many events an event sends at most.
const MOST_SENT: u64 = 8;

/// The line of the count.
const COUNT_LINE: u64 = 2;

/// The line of how many objects there are. Their lines follow.
const OBJECTS_LINE: u64 = 3;

/// The line of how many events are pending, which comes after the objects. The lines of the events follow.
fn events_line(objects: &[ObjectState]) -> u64
    ensures { result ≡ events_line (length objects.now) }
{
    OBJECTS_LINE + 1 + objects.len() as u64
}

/// Whether each object has a lawful number of events sent, and lawful cells.
pub(crate) fn check_objects<M: Model>(
    model: &M,
    count: u64,
    objects: &[ObjectState],
) -> Result<(), StateRefusal>
    requires few { count ≤ MOST_EVENTS }
    requires all { length objects.now ≡ (M.meaning model.now).objects }
    ensures { Gives (λ x. x) result (objects_check (M.meaning model.now) count 0 objects.now) }
{
    for i in 0..model.objects() {
        let object = &objects[i as usize];
        if object.sent > MOST_SENT * count || !model.is_lawful(i, &object.cells) {
            return Err(StateCause::Unlawful.at(OBJECTS_LINE + 1 + u64::from(i)));
        }
    }
    Ok(())
}

/// Whether an event is one that its source has sent.
fn is_sent(objects: &[ObjectState], key: &Key) -> bool
    ensures { result ≡ is_sent objects.now key.now }
{
    match objects.get(key.src as usize) {
        Some(object) => key.serial < object.sent,
        None => false,
    }
}

/// Whether an event is an initial one, or one that its source has sent.
fn has_source<M: Model>(model: &M, objects: &[ObjectState], key: &Key) -> bool
    ensures { result ≡ has_source (M.meaning model.now) objects.now key.now }
{
    let is_initial = key.src == INITIAL && key.serial < u64::from(model.starts());
    is_initial || is_sent(objects, key)
}

/// Whether an event has a destination, a rank and a source.
fn is_sound<M: Model>(model: &M, objects: &[ObjectState], key: &Key) -> bool
    ensures { result ≡ is_sound (M.meaning model.now) objects.now key.now }
{
    key.dest < model.objects() && key.rank <= MOST_RANK && has_source(model, objects, key)
}

/// Whether each event has a destination, a rank and a source.
pub(crate) fn check_events<M: Model>(
    model: &M,
    objects: &[ObjectState],
    events: &[Event],
) -> Result<(), StateRefusal>
    ensures { Gives (λ x. x) result (events_check (M.meaning model.now) objects.now 0 events.now) }
{
    for (i, event) in events.iter().enumerate() {
        if !is_sound(model, objects, &event.key) {
            return Err(StateCause::Unlawful.at(events_line(objects) + 1 + i as u64));
        }
    }
    Ok(())
}

/// Whether a state is one that a simulation of the model can meet.
#[tactic(auto, unfolding(crate::specs::LawfulChecks::lawful_check))]
pub(crate) fn check_lawful<M: Model>(
    model: &M,
    terms: &Terms,
    count: u64,
    objects: &[ObjectState],
    events: &[Event],
) -> Result<(), StateRefusal>
    ensures { Gives (λ x. x) result (lawful_check (M.meaning model.now) terms.now
        (record { objects = objects.now; pending = events.now; count = count })) }
{
    if count > terms.limit {
        return Err(StateCause::Unlawful.at(COUNT_LINE));
    }
    if objects.len() != model.objects() as usize {
        return Err(StateCause::Unlawful.at(OBJECTS_LINE));
    }
    check_objects(model, count, objects)?;
    if events.len() as u64 > MOST_AT_START + MOST_SENT * count {
        return Err(StateCause::Unlawful.at(events_line(objects)));
    }
    check_events(model, objects, events)
}
