use super::*;
use event_key::{Key, stamp_of};
use model_core::model::Model as SimulationModel;
use model_core::{Cells, Event, Outcome, Send};
use random_streams::Law;
use std::test::Fail;

/// What happens if the token comes at tick 12 to the last of three stations, which had it at tick 4.
#[tactic(auto, unfolding(crate::specs::Rings::ring_meaning, random_streams::specs::Laws::is_drawable))]
fn at_the_last(rt: &HostRuntime, patience: u64) -> Result<Outcome, Fail> {
    let ring = Ring {
        seed: 7,
        stations: 3,
        hold: Law::Fixed { value: 5 },
        patience,
    };
    let cells = Cells::of_words(rt.alloc(), &[0, 4])?;
    let key = Key {
        stamp: stamp_of(12, 0),
        rank: 0,
        dest: 2,
        src: 1,
        serial: 0,
    };
    let event = Event {
        key,
        kind: 1,
        a: 0,
        b: 0,
    };
    Ok(ring.react(rt.alloc(), 2, &cells, &event)?)
}

#[test]
fn the_last_station_hands_the_token_to_the_first(rt: HostRuntime) -> Result<(), Fail> {
    let Outcome::Goes(effect) = at_the_last(&rt, 8)? else {
        return Err(Fail::from("a fault"));
    };
    let sends = effect.sends.as_slice();
    assert_eq!(rt; sends.len(), 1);
    assert_eq!(rt; (sends[0].dest, sends[0].delay), (0, 5));
    assert_eq!(rt; effect.note.len(), 1);
    assert_eq!(rt; (effect.note.at(0).a, effect.note.at(0).b), (5, 8));
    Ok(())
}

#[test]
fn a_token_that_comes_a_tick_too_late_is_a_fault(rt: HostRuntime) -> Result<(), Fail> {
    assert!(rt; matches!(at_the_last(&rt, 7)?, Outcome::Fails(2)));
    Ok(())
}
