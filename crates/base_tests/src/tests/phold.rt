//! What an event of PHOLD does, and the initial events and names of its objects.
ghost use Rattle.std.specs.Prelude.{◌≡◌, ◌<◌};
ghost use Rattle.event_key.specs.Stamps.{time_part};

use super::key;
use model_core::model::Model as SimulationModel;
use model_core::{
    Cells, Change, Effect, Entry, Event, Note, OutOfMemory, Outcome, Part, Send, Start,
};
use phold_model::Phold;
use random_streams::Law;
use std::alloc::Global;
use std::process::Abort;
use std::test::Fail;

/// An event at the start, with this destination.
fn first_event(dest: u32) -> Event
    ensures { time_part result.key.stamp ≡ 0 }
{
    Event {
        key: key(0, 0, dest),
        kind: 4,
        a: 0,
        b: 0,
    }
}

/// An event at an object, whose stream is at this place or whose cells are the first ones, and what it changes and sends.
struct Hop {
    object: u32,
    place: Option<u64>,
    changes: &'static [Change],
    send: Send,
}

/// The cells of the object.
fn cells_of<M: SimulationModel>(alloc: Global, model: &M, hop: &Hop) -> Result<Cells, OutOfMemory>
    requires { hop.now.object < (M.meaning model.now).objects }
{
    match hop.place {
        Some(place) => Cells::of_words(alloc, &[place]),
        None => model.first_cells(alloc, hop.object),
    }
}

/// Whether an effect changes and sends just that, and tells what is sent.
fn is_of(effect: &Effect, hop: &Hop) -> bool {
    let told = Part {
        word: 1,
        a: hop.send.delay,
        b: u64::from(hop.send.dest),
    };
    effect.changes.as_slice() == hop.changes
        && effect.sends.as_slice() == [hop.send].as_slice()
        && effect.note == Note::of(told)
}

/// The event changes and sends just that, and tells what is sent.
fn assert_hop<R: Abort, M: SimulationModel>(
    rt: &R,
    alloc: Global,
    model: &M,
    hop: &Hop,
) -> Result<(), Fail> {
    assert!(rt; hop.object < model.objects());
    let cells = cells_of(alloc, model, hop)?;
    assert!(rt; model.is_lawful(hop.object, &cells));
    let event = first_event(hop.object);
    match model.react(alloc, hop.object, &cells, &event)? {
        Outcome::Goes(effect) => assert!(rt; is_of(&effect, hop), "{}", hop.object),
        Outcome::Fails(_) => return Err(Fail::from("the event fails")),
    }
    Ok(())
}

/// There are so many objects, and each of these events changes and sends what it says.
fn assert_hops<R: Abort, M: SimulationModel>(
    rt: &R,
    alloc: Global,
    model: &M,
    objects: u32,
    hops: &[Hop],
) -> Result<(), Fail> {
    assert!(rt; model.objects() == objects);
    for hop in hops {
        assert_hop(rt, alloc, model, hop)?;
    }
    Ok(())
}

/// The event goes to this object, after this delay and with this rank.
macro_rules! hop_to {
    ($dest:literal, $delay:literal, $rank:literal) => {
        Send {
            dest: $dest,
            delay: $delay,
            kind: 4,
            a: 0,
            b: 0,
            rank: $rank,
        }
    };
}

/// An object that sends to itself after drawn delays.
const TO_ITSELF: [Hop; 3] = [
    Hop {
        object: 0,
        place: Some(0),
        changes: &[Change::Set { word: 0, value: 2 }],
        send: hop_to!(0, 5, 0),
    },
    Hop {
        object: 0,
        place: Some(2),
        changes: &[Change::Set { word: 0, value: 4 }],
        send: hop_to!(0, 3, 0),
    },
    Hop {
        object: 0,
        place: Some(4),
        changes: &[Change::Set { word: 0, value: 6 }],
        send: hop_to!(0, 4, 0),
    },
];

/// Each object sends to the next one after a fixed delay.
const TO_THE_NEXT: [Hop; 3] = [
    Hop {
        object: 0,
        place: None,
        changes: &[],
        send: hop_to!(1, 5, 7),
    },
    Hop {
        object: 1,
        place: None,
        changes: &[],
        send: hop_to!(2, 5, 7),
    },
    Hop {
        object: 2,
        place: None,
        changes: &[],
        send: hop_to!(0, 5, 7),
    },
];

#[test]
fn an_object_sends_to_itself_after_drawn_delays(rt: HostRuntime) -> Result<(), Fail> {
    let delay = Law::Uniform { low: 1, high: 10 };
    assert!(rt; delay.is_delay());
    let model = Phold::make(0, 1, delay, true, 0, Vec::new(rt.alloc()), 0)?;
    assert_hops(&rt, rt.alloc(), &model, 1, &TO_ITSELF)
}

#[test]
fn the_next_object_after_a_fixed_delay(rt: HostRuntime) -> Result<(), Fail> {
    let delay = Law::Fixed { value: 5 };
    assert!(rt; delay.is_delay());
    let model = Phold::make(0, 3, delay, false, 0, Vec::new(rt.alloc()), 7)?;
    assert_hops(&rt, rt.alloc(), &model, 3, &TO_THE_NEXT)
}

/// Initial events come object by object and then as listed: their places, times, objects and ranks.
const STARTS: [(u32, u64, u32, u32); 6] = [
    (0, 0, 0, 1),
    (1, 0, 0, 1),
    (2, 0, 1, 1),
    (3, 0, 1, 1),
    (4, 9, 1, 3),
    (5, 2, 0, 4),
];

/// A model has six initial events, which are these.
fn assert_starts<R: Abort, M: SimulationModel>(rt: &R, model: &M, starts: &[(u32, u64, u32, u32)]) {
    assert!(rt; model.starts() == 6);
    for (place, time, dest, rank) in starts {
        assert!(rt; *place < model.starts());
        let wanted = Start {
            time: *time,
            dest: *dest,
            kind: 4,
            a: 0,
            b: 0,
            rank: *rank,
        };
        assert!(rt; model.start(*place) == wanted, "{place}");
    }
}

#[test]
fn initial_events_come_object_by_object_and_then_as_listed(rt: HostRuntime) -> Result<(), Fail> {
    let delay = Law::Fixed { value: 5 };
    assert!(rt; delay.is_delay());
    let start = vec![in rt.alloc();
        Entry {
            time: 9,
            at: 1,
            rank: 3
        },
        Entry {
            time: 2,
            at: 0,
            rank: 4
        },
    ]?;
    let model = Phold::make(0, 2, delay, false, 2, start, 1)?;
    assert_starts(&rt, &model, &STARTS);
    Ok(())
}

/// A model has as many objects and initial events as there may be, and its objects are named by their numbers.
fn assert_largest<R: Abort, M: SimulationModel>(
    rt: &R,
    alloc: Global,
    model: &M,
) -> Result<(), Fail> {
    assert!(rt; model.objects() == 65_536);
    assert!(rt; model.starts() == 262_144);
    let mut text = Vec::new(alloc);
    model.put_name(alloc, 0, &mut text)?;
    model.put_name(alloc, 65_535, &mut text)?;
    assert!(rt; text.as_slice() == b"p0p65535".as_slice());
    Ok(())
}

#[test]
fn objects_are_named_by_their_numbers(rt: HostRuntime) -> Result<(), Fail> {
    let delay = Law::Fixed { value: 0 };
    assert!(rt; delay.is_delay());
    let model = Phold::make(0, 65_536, delay, true, 4, Vec::new(rt.alloc()), 255)?;
    assert_largest(&rt, rt.alloc(), &model)
}
