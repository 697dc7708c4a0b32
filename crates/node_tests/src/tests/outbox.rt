//! Messages that lie in the chains of their homes.
ghost use Rattle.std.specs.Prelude.{◌≡◌, length, IfOk};
ghost use Rattle.event_log.specs.Outboxes.{AreBlank};

use event_chain::{Cell, Chain};
use event_key::Key;
use event_log::Outbox;
use model_core::Event;
use std::alloc::Global;
use std::test::Fail;

/// A message to an object, told apart by its kind.
fn message(alloc: Global, kind: u32) -> Result<Cell<Event>, Fail> {
    let key = Key {
        stamp: 1 << 16,
        rank: 0,
        dest: 0,
        src: 0,
        serial: 0,
    };
    let event = Event {
        key,
        kind,
        a: 0,
        b: 0,
    };
    match Cell::new(alloc, event) {
        Ok(cell) => Ok(cell),
        Err(_) => Err(Fail::from("no memory")),
    }
}

/// Two chains without events.
fn two_chains(alloc: Global) -> Result<Vec<Chain<Event>>, Fail>
    ensures blank { IfOk result (λ chains. AreBlank chains.items) }
    ensures two { IfOk result (λ chains. length chains.items ≡ 2) }
{
    let mut chains = Vec::new(alloc);
    chains.push(Chain::new())?;
    chains.push(Chain::new())?;
    Ok(chains)
}

/// The kinds of the messages of a chain.
fn kinds(alloc: Global, chain: &mut Chain<Event>) -> Result<Vec<u32>, Fail> {
    let mut kinds = Vec::new(alloc);
    for _ in 0..chain.len() {
        if let Some(message) = chain.pop_front() {
            kinds.push(message.get().kind)?;
        }
    }
    Ok(kinds)
}

#[test]
fn messages_lie_in_the_chains_of_their_homes_the_newest_first(rt: HostRuntime) -> Result<(), Fail> {
    let alloc = rt.alloc();
    let mut outbox = Outbox::new(alloc, two_chains(alloc)?);
    outbox.reserve(3)?;
    outbox.push(1, message(alloc, 10)?);
    outbox.push(0, message(alloc, 11)?);
    outbox.push(1, message(alloc, 12)?);
    assert!(rt; outbox.len() == 3);
    let mut chains = two_chains(alloc)?;
    outbox.hand_out(&mut chains);
    assert!(rt; outbox.len() == 0);
    assert!(rt; kinds(alloc, &mut chains[0])?.as_slice() == [11].as_slice());
    assert!(rt; kinds(alloc, &mut chains[1])?.as_slice() == [12, 10].as_slice());
    Ok(())
}

#[test]
fn the_last_message_comes_back(rt: HostRuntime) -> Result<(), Fail> {
    let alloc = rt.alloc();
    let mut outbox = Outbox::new(alloc, two_chains(alloc)?);
    outbox.reserve(2)?;
    outbox.push(0, message(alloc, 10)?);
    outbox.push(1, message(alloc, 11)?);
    assert!(rt; outbox.pop().get().kind == 11);
    assert!(rt; outbox.len() == 1);
    assert!(rt; outbox.pop().get().kind == 10);
    assert!(rt; outbox.len() == 0);
    Ok(())
}
