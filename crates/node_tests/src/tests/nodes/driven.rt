//! A node that is driven by hand: each call is made once all that the node asks is seen to hold. What the calls mean is no clause
//! of those that tests make, since a clause over a model of its own costs each test that calls.
ghost use Rattle.std.specs.Prelude.{◌≡◌, IfOk};
ghost use Rattle.std.specs.List.{list_any};
ghost use Rattle.event_key.specs.Stamps.{end_stamp};
ghost use Rattle.event_key.specs.Keys.{same_key};
ghost use Rattle.node_core.specs.Steps.{HasStepped};
ghost use Rattle.node_tests.specs.Drives.{fault_is_due};

use event_chain::{Cell, Chain};
use event_key::{Key, NO_STAMP, end_bound};
use model_core::model::Model as SimulationModel;
use model_core::{Event, OutOfMemory};
use node_core::{Committed, Homes, Node, Step, Tallies};
use sim_spec::{Placement, Terms};
use std::alloc::Global;
use std::marker::Model;
use std::process::Abort;
use std::sync::Arc;
use std::test::Fail;

/// A node, the keys of all events that it ever received, and a number that no object has sent more events than before
/// its processed ones.
#[derive(Drop)]
pub struct Driven<M: SimulationModel> {
    node: Node<M>,
    homes: Arc<Homes>,
    keys: Vec<Key>,
    sent: u64,
}

impl<M: SimulationModel> Model for Driven<M> {
    ghost use Rattle.std.specs.Prelude.{◌≡◌};
    ghost use Rattle.std.specs.Arc.{arc_value};
    ghost use Rattle.node_core.specs.Nodes.{NodeView};
    ghost use Rattle.node_tests.specs.Drives.{IsDriven};

    ghost Value = { NodeView M };

    ghost view = { λ d. d.node };

    ghost invariant = { λ d. (d.node.homes ≡ arc_value d.homes) × IsDriven (M.meaning d.node.model) d.node d.keys.items d.sent };
}

/// Whether two keys are the same.
#[tactic(auto, unfolding(event_key::specs::Keys::same_key, event_key::specs::Keys::key_cmp))]
fn is_same(one: &Key, other: &Key) -> bool
    ensures { result ≡ same_key one.now other.now }
{
    one.cmp(other).is_eq()
}

/// Whether a key is among others.
fn is_known(keys: &[Key], key: &Key) -> bool
    ensures { result ≡ list_any (same_key key.now) keys.now }
{
    for known in keys {
        if is_same(key, known) {
            return true;
        }
    }
    false
}

/// Whether a fault is below a horizon and a cut.
#[tactic(auto, unfolding(key_order::specs::Due::is_due))]
fn is_due(fault: Option<(Key, u32)>, horizon: u64, cut: &Option<Key>) -> bool
    ensures { result ≡ fault_is_due horizon cut.now fault }
{
    let Some((key, _code)) = fault else {
        return false;
    };
    key.stamp < horizon
        && match cut {
            Some(cut) => key.is_before(cut),
            None => true,
        }
}

impl<M: SimulationModel> Driven<M> {
    /// A new node, one of so many.
    pub fn new<R: Abort>(
        rt: &R,
        alloc: Global,
        model: M,
        terms: Terms,
        number: u32,
        nodes: u32,
    ) -> Result<Driven<M>, Fail> {
        assert!(rt; number < nodes);
        assert!(rt; nodes <= 64);
        let homes = Homes::new(alloc, model.objects(), nodes, Placement::Round)?;
        let homes = Arc::new(alloc, homes)?;
        let model = Arc::new(alloc, model)?;
        let shared = Arc::clone(&homes)?;
        let node = Node::new(alloc, model, terms, number, shared)?;
        node.tells_keys();
        Ok(Driven {
            node,
            homes,
            keys: Vec::new(alloc),
            sent: 0,
        })
    }

    /// An event arrives, whose key no other has that came before. Answers how many events it undid.
    pub fn receive<R: Abort>(&mut self, rt: &R, alloc: Global, event: Event) -> Result<u64, Fail> {
        assert!(rt; event.key.dest < self.node.model().objects());
        let homes = &*self.homes;
        assert!(rt; event.key.dest < homes.objects());
        assert!(rt; homes.home(event.key.dest) == self.node.number());
        if is_known(&self.keys, &event.key) {
            return Err(Fail::from("the key came before"));
        }
        assert!(rt; self.keys.len() < 100);
        let Ok(cell) = Cell::new(alloc, event) else {
            return Err(Fail::from("no memory"));
        };
        let mut events = Chain::new();
        events.push_back(cell);
        self.node.room(alloc, 1)?;
        self.keys.push(event.key)?;
        self.node.tells_share();
        let undone = self.node.receive(events);
        self.node.tells_share();
        Ok(undone)
    }

    /// The least stamp of the messages that the node holds, or `NO_STAMP`.
    pub fn held(&mut self) -> u64 {
        self.node.open_cycle()
    }

    /// Undoes what isn't below the horizon. Answers how many events it undid.
    pub fn undo_from(&mut self, horizon: u64) -> u64 {
        self.node.tells_share();
        let undone = self.node.undo_from(horizon);
        self.node.tells_share();
        undone
    }

    /// Processes the least event that waits below the end.
    pub fn step<R: Abort>(&mut self, rt: &R, alloc: Global) -> Result<Step, OutOfMemory> {
        self.next_step(rt, alloc)
    }

    /// The least fault.
    pub fn faulted(&self) -> Option<(Key, u32)> {
        self.node.faulted()
    }

    /// The least key of all events.
    pub fn least(&self) -> Option<Key> {
        self.node.least()
    }

    /// What the node counted.
    pub fn tallies(&self) -> Tallies {
        self.node.tallies()
    }

    /// The keys of the processed events.
    pub fn keys(&self, alloc: Global) -> Result<Vec<Key>, OutOfMemory> {
        let mut keys = Vec::new(alloc);
        self.node.keys_below(NO_STAMP, &mut keys)?;
        Ok(keys)
    }

    /// Processes the least event that waits below the end, and tells what that means.
    fn next_step<R: Abort>(&mut self, rt: &R, alloc: Global) -> Result<Step, OutOfMemory>
        ensures { IfOk result (λ step. HasStepped (M.meaning self.old.model) (end_stamp self.old.terms.end) self.old self.new step) }
    {
        self.node.tells_sent();
        self.node.tells_keys();
        assert!(rt; self.keys.len() <= 100);
        assert!(rt; self.sent < 1000000);
        let end = end_bound(self.node.terms().end);
        let step = self.node.step(alloc, end)?;
        Ok(step)
    }

    /// Commits what is due, once no event waits below the end and no fault is due.
    pub fn commit<R: Abort>(
        &mut self,
        rt: &R,
        alloc: Global,
        horizon: u64,
        cut: Option<Key>,
    ) -> Result<Committed, Fail> {
        let step = self.next_step(rt, alloc)?;
        let Step::Idle = step else {
            return Err(Fail::from("an event waits"));
        };
        assert!(rt; horizon <= end_bound(self.node.terms().end));
        let fault = self.node.faulted();
        if is_due(fault, horizon, &cut) {
            return Err(Fail::from("a fault is due"));
        }
        assert!(rt; self.keys.len() <= 100);
        assert!(rt; self.sent < 1000000);
        self.node.tells_sent();
        self.node.tells_keys();
        let mut committed = Committed::new(alloc, self.homes.nodes())?;
        self.node.commit(horizon, cut, &mut committed)?;
        self.sent += 800;
        Ok(committed)
    }
}
