//! Messages in the chains of their homes.
ghost use Rattle.std.specs.Prelude.{◌≡◌, ℕ, ◌+◌, ◌<◌, ◌≤◌, ◌^◌, [], ◌∷◌, ◌++◌, length, OnOk};
ghost use Rattle.event_log.specs.Outboxes.{AreBlank, chain_at, parcel};

use event_chain::{Cell, Chain};
use model_core::{Event, OutOfMemory};
use std::alloc::Global;
use std::marker::Model;
use std::mem;

/// Messages that are held until the events that send them are committed. Each lies in the chain of its home at once, the
/// newest first, so the last one that was put in can be taken back, and a commit hands out the chains as they lie.
/// Contracts see the messages with their homes, in the order in which they were put in, how many homes there are, and for
/// how many more messages there is room.
#[derive(Drop)]
pub struct Outbox {
    // the home of each message, in the order in which they were put in
    homes: Vec<u32>,
    // for each home a chain
    chains: Vec<Chain<Event>>,
}

impl Model for Outbox {
    ghost use Rattle.std.specs.Prelude.{◌-◌, length};
    ghost use Rattle.std.specs.Vec.{vec_capacity};
    ghost use Rattle.event_log.specs.Outboxes.{IsOutbox, OutboxView, sent_of};

    ghost Value = { OutboxView };

    ghost view = { λ o. record { sent = sent_of o.homes.items o.chains.items; nodes = length o.chains.items; room = vec_capacity o.homes - length o.homes.items } };

    ghost invariant = { λ o. IsOutbox o.homes.items o.chains.items };
}

impl Outbox {
    /// No message. There is a chain for each home, without events.
    pub fn new(alloc: Global, chains: Vec<Chain<Event>>) -> Outbox
        requires { AreBlank chains.items }
        ensures sent { result.sent ≡ [] }
        ensures nodes { result.nodes ≡ length chains.items }
    {
        Outbox {
            homes: Vec::new(alloc),
            chains,
        }
    }

    /// How many messages there are.
    pub fn len(&self) -> usize
        ensures { result ≡ length self.now.sent }
    {
        self.homes.len()
    }

    /// How many homes there are.
    pub fn nodes(&self) -> usize
        ensures { result ≡ self.now.nodes }
    {
        self.chains.len()
    }

    /// Makes room for so many more.
    pub fn reserve(&mut self, messages: usize) -> Result<(), OutOfMemory>
        ensures ok { OnOk result (messages ≤ self.new.room) }
        ensures sent { self.new.sent ≡ self.old.sent }
        ensures nodes { self.new.nodes ≡ self.old.nodes }
    {
        self.homes.reserve(messages)?;
        Ok(())
    }

    /// Puts a message in front of the chain of its home.
    pub fn push(&mut self, home: u32, message: Cell<Event>)
        requires home { home < self.old.nodes }
        requires room { 1 ≤ self.old.room }
        requires few { length self.old.sent + 1 < 2 ^ 60 }
        ensures sent { self.new.sent ≡ self.old.sent ++ (home, message) ∷ [] }
        ensures nodes { self.new.nodes ≡ self.old.nodes }
        ensures room { self.new.room + 1 ≡ self.old.room }
    {
        self.chains[home as usize].push_front(message);
        self.homes.push_reserved(home);
    }

    /// Takes the message back that was put in last.
    pub fn pop(&mut self) -> Cell<Event>
        requires { 0 < length self.old.sent }
        ensures sent { (home : ℕ) × (self.old.sent ≡ self.new.sent ++ (home, result) ∷ []) }
        ensures nodes { self.new.nodes ≡ self.old.nodes }
    {
        let home = self.homes.pop().unwrap();
        let Some(message) = self.chains[home as usize].pop_front() else {
            unreachable!()
        };
        message
    }

    /// Hands out all messages, in the chains of their homes, for chains without events.
    pub fn hand_out(&mut self, chains: &mut Vec<Chain<Event>>)
        requires blank { AreBlank chains.old.items }
        requires long { length chains.old.items ≡ self.old.nodes }
        ensures parcels { (node : ℕ) → chain_at chains.new.items node ≡ parcel node self.old.sent }
        ensures long { length chains.new.items ≡ self.old.nodes }
        ensures sent { self.new.sent ≡ [] }
        ensures nodes { self.new.nodes ≡ self.old.nodes }
    {
        mem::swap(&mut self.chains, chains);
        self.homes.clear();
    }
}
