//! A node.
ghost use Rattle.std.specs.Prelude.{◌≡◌, ◌≢◌, ◌<◌, ◌≤◌, ◌+◌, ◌*◌, ◌%◌, ◌^◌, ◌++◌, length, filter, nat_lt, IfOk, OnOk, OnErr};
ghost use Rattle.std.specs.List.{AllByRecursion};
ghost use Rattle.std.specs.Arc.{arc_value};
ghost use Rattle.event_key.specs.Stamps.{end_stamp};
ghost use Rattle.world_spec.specs.Share.{IsAtHome, IsHome};
ghost use Rattle.world_spec.specs.Moves.{IsDueDone};
ghost use Rattle.node_core.specs.Blank.{IsBlank};
ghost use Rattle.node_core.specs.Calls.{CommitsNothing, ReceivesNothing, HasCommitted, HasReceived, HasUndoneFrom, HaveOwnKeys, HaveSentFew, IsLeastFaultOf, IsLeastKeyOf, IsNewNode, tallies_of};
ghost use Rattle.node_core.specs.Homes.{IsLeastObject, home_of, objects_of};
ghost use Rattle.node_core.specs.Moving.{AreAlikeBut, CanTakeIn, HasTakenIn, HasTakenOut, KeepObjects};
ghost use Rattle.node_core.specs.Nodes.{IsAsBefore, Stands, ahead_of, data_of, home, share_of};
ghost use Rattle.node_core.specs.Shares.{AreProcessedKeys, SendAtMostEight, StandsForItsOwn};
ghost use Rattle.node_core.specs.Steps.{IsHeldLeast, HasStepped};

mod moving;
mod saving;

use crate::committed::Committed;
use crate::homes::Homes;
use crate::keys::is_before_fault;
use crate::step::Step;
use crate::store::Store;
use crate::tallies::{Tallies, met_after, raised, tells_range};
use event_chain::Chain;
use event_key::Key;
use model_core::model::{Model as SimulationModel, keeps_laws};
use model_core::{Event, OutOfMemory};
use sim_spec::Terms;
use speedes_queue::lesser;
use std::alloc::Global;
use std::marker::Model;
use std::sync::Arc;

/// The objects of one node, each with its log, and the events that wait.
#[derive(Drop)]
pub struct Node<M: SimulationModel> {
    model: Arc<M>,
    terms: Terms,
    number: u32,
    store: Store,
    work: u64,
    met: u64,
    processed: u64,
    undone: u64,
    committed: u64,
}

impl<M: SimulationModel> Model for Node<M> {
    ghost use Rattle.std.specs.Arc.{arc_value};
    ghost use Rattle.node_core.specs.Nodes.{NodeView};
    ghost use Rattle.node_core.specs.Rows.{keys_of};
    ghost use Rattle.node_core.specs.Sound.{IsNode};

    ghost Value = { NodeView M };

    ghost view = { λ n. record {
      model = arc_value n.model;
      terms = n.terms;
      number = n.number;
      homes = n.store.homes;
      logs = n.store.logs;
      processed = keys_of n.store.marks;
      waiting = n.store.waiting;
      spare = n.store.spare;
      work = n.work;
      met = n.met;
      counts = record { processed = n.processed; undone = n.undone; committed = n.committed };
    } };

    ghost invariant = { λ n. IsNode (M.meaning (arc_value n.model)) n.terms n.number n.store.homes n.store.logs n.store.marks
        (record { processed = n.processed; undone = n.undone; committed = n.committed }) };
}

impl<M: SimulationModel> Node<M> {
    /// A node with the first cells of its objects, and no event.
    pub fn new(
        alloc: Global,
        model: Arc<M>,
        terms: Terms,
        number: u32,
        homes: Arc<Homes>,
    ) -> Result<Node<M>, OutOfMemory>
        requires number { number < (arc_value homes).nodes }
        requires objects { length (arc_value homes).homes ≡ (M.meaning (arc_value model)).objects }
        ensures model { IfOk result (λ node. node.model ≡ arc_value model) }
        ensures terms { IfOk result (λ node. node.terms ≡ terms) }
        ensures number { IfOk result (λ node. node.number ≡ number) }
        ensures homes { IfOk result (λ node. node.homes ≡ arc_value homes) }
        ensures new { IfOk result (IsNewNode (M.meaning (arc_value model))) }
    {
        keeps_laws(&*model);
        let store = Store::new(alloc, &*model, number, homes)?;
        Ok(Node {
            model,
            terms,
            number,
            store,
            work: 0,
            met: 0,
            processed: 0,
            undone: 0,
            committed: 0,
        })
    }

    /// The model.
    pub fn model(&self) -> &M
        ensures { result.now ≡ self.now.model }
    {
        &self.model
    }

    /// How far the simulation goes.
    pub fn terms(&self) -> Terms
        ensures { result ≡ self.now.terms }
    {
        self.terms
    }

    /// Which node it is.
    pub fn number(&self) -> u32
        ensures { result ≡ self.now.number }
    {
        self.number
    }

    /// Makes room for events that arrive.
    pub fn room(&mut self, alloc: Global, incoming: usize) -> Result<(), OutOfMemory>
        requires { incoming ≤ 2 ^ 60 }
        ensures ok { OnOk result (incoming ≤ self.new.spare) }
        ensures same { IsAsBefore self.old self.new }
    {
        self.store.reserve(alloc, incoming)
    }

    /// Adds events that arrive. Each destination undoes what it has processed past the first of them that is at it.
    /// Answers how many events were undone.
    pub fn receive(&mut self, events: Chain<Event>) -> u64
        requires spare { length events ≤ self.old.spare }
        requires homed { AllByRecursion (IsAtHome (M.meaning self.old.model) (home self.old) self.old.number) events }
        requires keys { HaveOwnKeys (M.meaning self.old.model) self.old events }
        requires few { length events + length self.old.processed + length self.old.waiting < 2 ^ 60 }
        ensures { HasReceived (M.meaning self.old.model) events self.old self.new result }
    {
        self.store.tells();
        let count = self.store.receive(events);
        self.store.tells();
        self.undone = self.undone.wrapping_add(count);
        count
    }

    /// The least stamp of the messages that it holds, or `NO_STAMP`, in constant time.
    pub fn open_cycle(&mut self) -> u64
        ensures same { self.new ≡ self.old }
        ensures least { IsHeldLeast (M.meaning self.old.model) self.old result }
    {
        self.store.tells();
        self.store.held_least()
    }

    /// Processes the least event that waits, if its stamp is below the bound and its key below each fault that the node
    /// met.
    pub fn step(&mut self, alloc: Global, bound: u64) -> Result<Step, OutOfMemory>
        requires bound { bound ≤ end_stamp self.old.terms.end }
        requires sent { HaveSentFew (M.meaning self.old.model) self.old }
        ensures ok { IfOk result (λ step. HasStepped (M.meaning self.old.model) bound self.old self.new step) }
        ensures err { OnErr result (IsAsBefore self.old self.new) }
    {
        keeps_laws(&*self.model);
        self.store.tells();
        let Some(key) = self.store.first_waiting() else {
            return Ok(Step::Idle);
        };
        if key.stamp >= bound || !is_before_fault(&key, &self.store.faulted()) {
            return Ok(Step::Idle);
        }
        let mark = self.store.fire(alloc, &*self.model, &self.terms, &key)?;
        self.store.tells();
        self.work = raised(self.work);
        self.met = met_after(self.met, mark.fault);
        self.processed = self.processed.wrapping_add(1);
        Ok(Step::Did {
            key,
            least: mark.least,
        })
    }

    /// Undoes each processed event that isn't below the horizon. Answers how many there were.
    pub fn undo_from(&mut self, horizon: u64) -> u64
        ensures { HasUndoneFrom (M.meaning self.old.model) horizon self.old self.new result }
    {
        self.store.tells();
        let count = self.store.undo_from(horizon);
        self.store.tells();
        self.undone = self.undone.wrapping_add(count);
        count
    }

    /// The least key at which a processed event failed, and its code.
    pub fn faulted(&self) -> Option<(Key, u32)>
        ensures { IsLeastFaultOf (M.meaning self.now.model) self.now result }
    {
        self.store.tells();
        self.store.faulted()
    }

    /// The least key of all its events, processed ones among them.
    pub fn least(&self) -> Option<Key>
        ensures { IsLeastKeyOf (M.meaning self.now.model) self.now result }
    {
        self.store.tells();
        lesser(self.store.first_processed(), self.store.first_waiting())
    }

    /// Appends the keys of the processed events below the horizon, in their order.
    pub fn keys_below(&self, horizon: u64, into: &mut Vec<Key>) -> Result<(), OutOfMemory>
        ensures ok { OnOk result (into.new.items ≡ into.old.items ++ filter (λ k. nat_lt k.stamp horizon) self.now.processed) }
        ensures err { OnErr result (into.new.items ≡ into.old.items) }
    {
        self.store.push_below(horizon, into)
    }

    /// Commits each processed event that is due: its stamp is below the horizon, and its key below the cut where there
    /// is one. It fills lists that the caller keeps, and takes memory only where they have too little room.
    pub fn commit(
        &mut self,
        horizon: u64,
        cut: Option<Key>,
        into: &mut Committed,
    ) -> Result<(), OutOfMemory>
        requires done { IsDueDone (M.meaning self.old.model) (home self.old) self.old.number horizon cut (data_of self.old) }
        requires few { 8 * length self.old.processed < 2 ^ 60 }
        requires blank { IsBlank self.old.homes.nodes into.old }
        ensures ok { OnOk result (HasCommitted (M.meaning self.old.model) horizon cut self.old self.new into.new.done.items into.new.out.items) }
        ensures err { OnErr result (self.new ≡ self.old) }
        ensures blank { OnErr result (IsBlank self.old.homes.nodes into.new) }
    {
        keeps_laws(&*self.model);
        self.store.tells();
        self.store.commit(horizon, &cut, into)?;
        self.store.tells();
        self.committed = self.committed.wrapping_add(into.done.len() as u64);
        Ok(())
    }

    /// What it counted, and how many events are processed now.
    pub fn tallies(&self) -> Tallies
        ensures value { result ≡ tallies_of self.now }
        ensures balance { result.processed ≡ (result.committed + result.undone + result.left) % 2 ^ 64 }
    {
        Tallies {
            processed: self.processed,
            undone: self.undone,
            committed: self.committed,
            left: self.store.processed() as u64,
        }
    }

    /// A node stands for the share that its logs and events make up, and for no other.
    pub fn tells_share(&self)
        ensures stands { Stands (M.meaning self.now.model) self.now (share_of self.now) (ahead_of self.now) }
        ensures only { StandsForItsOwn (M.meaning self.now.model) self.now }
        ensures size { length self.now.processed + length self.now.waiting ≡ length (share_of self.now).pending }
        ensures few { length self.now.processed + length self.now.waiting < 2 ^ 60 }
    {
        self.store.tells();
    }

    /// A commit changes nothing if no event is processed, and a receipt changes nothing if no event arrives.
    pub fn tells_idle(&self)
        ensures commits { CommitsNothing (M.meaning self.now.model) self.now }
        ensures receives { ReceivesNothing (M.meaning self.now.model) self.now }
    {
        tells_range(self.committed);
        tells_range(self.undone);
        keeps_laws(&*self.model);
        self.store.tells();
    }

    /// Which keys the processed events have.
    pub fn tells_keys(&self)
        ensures { AreProcessedKeys (M.meaning self.now.model) self.now }
    {
        self.store.tells();
    }

    /// No object has sent more than eight events for each that it has processed, beside those before.
    pub fn tells_sent(&self)
        ensures { SendAtMostEight self.now }
    {
        keeps_laws(&*self.model);
        self.store.tells();
    }
}

/// Objects go from node to node.
impl<M: SimulationModel> Node<M> {
    /// How many events it has, processed ones among them.
    pub fn pending(&self) -> u64
        ensures { result ≡ length self.now.processed + length self.now.waiting }
    {
        self.store.tells();
        (self.store.processed() + self.store.waiting()) as u64
    }

    /// How many objects it has.
    pub fn objects(&self) -> u32
        ensures { result ≡ objects_of self.now.homes self.now.number }
    {
        self.store.homes().objects_of(self.number)
    }

    /// The least of its objects, in time linear in how many objects of other nodes come before it.
    pub fn least_object(&self) -> Option<u32>
        ensures { IsLeastObject self.now.homes self.now.number result }
    {
        self.store.homes().least_of(self.number)
    }

    /// Has other homes, under which its objects are the same.
    pub fn set_homes(&mut self, homes: Arc<Homes>)
        requires { KeepObjects self.old.number self.old.homes (arc_value homes) }
        ensures { self.new ≡ record self.old { homes = arc_value homes } }
    {
        self.store.set_homes(homes);
    }

    /// Its homes are those of the model's objects.
    pub fn tells_homes(&self)
        ensures { length self.now.homes.homes ≡ (M.meaning self.now.model).objects }
    {
        let _ = &self.work;
    }
}
