//! What was processed since the last commit.
ghost use Rattle.std.specs.Prelude.{◌≡◌, ℕ, ◌<◌, ◌≤◌, ◌+◌, ◌^◌, [], ◌∷◌, ◌++◌, length, map, min, take, drop, slice_get, filter, vec_len, vec_capacity, IfOk, IfErr, IfSome, IfNone, OnOk, OnErr, IsTrue, Some, None, true};
ghost use Rattle.std.specs.List.{AllByRecursion};
ghost use Rattle.event_key.specs.Keys.{key_lt};
ghost use Rattle.event_key.specs.declared.stamp.TheConstants.{NO_STAMP};
ghost use Rattle.key_order.specs.Ascending.{Ascends};
ghost use Rattle.key_order.specs.Stamps.{least_stamp};
ghost use Rattle.model_core.specs.Meaning.{Meaning};
ghost use Rattle.object_log.specs.EventLogs.{done_key};
ghost use Rattle.object_log.specs.Keeping.{OnlyLastFailed};
ghost use Rattle.object_log.specs.Logs.{fault_of, held_of, keys_of};
ghost use Rattle.object_log.specs.Objects.{IsSameObject};
ghost use Rattle.object_log.specs.Parts.{due_of, left_of};
ghost use Rattle.object_log.specs.Tellings.{told_all};
ghost use Rattle.object_log.specs.Flat.{zeros};
ghost use Rattle.event_log.specs.Keeping.{IsKept, done_in};
ghost use Rattle.event_log.specs.News.{CanFire, CanTake, HasJoined, least_after};
ghost use Rattle.event_log.specs.Outboxes.{AreBlank, chain_at, parcel};
ghost use Rattle.event_log.specs.Popping.{HasPopped};

use crate::contents::Contents;
use crate::outbox::Outbox;
use crate::popped::{take_sends, verdict_at};
use crate::row::Row;
use crate::sending::hold_all;
use event_chain::{Cell, CellPool, Chain};
use event_key::{Key, NO_STAMP};
use model_core::model::Model as SimulationModel;
use model_core::{Change, Effect, Ending, Event, OutOfMemory, RecordBuffer};
use object_log::{Object, is_due_at};
use std::alloc::Global;
use std::marker::Model;
use std::mem;

/// How many events or messages there are at most when another event comes.
const MOST: usize = 1 << 40;

/// What was processed since the last commit, in the order of the keys, in flat lists that serve again: the events, what is told
/// of each in the buffer that a commit hands out, what undoes their changes, and their messages in the chains of their homes.
#[derive(Drop)]
pub struct News {
    rows: Vec<Row>,
    told: RecordBuffer,
    // what undoes the changes, one event's behind another's
    undo: Vec<Change>,
    outbox: Outbox,
    // the code of the last event, if that failed
    fault: Option<u32>,
}

impl Model for News {
    ghost use Rattle.event_log.specs.News.{IsNews, NewsView, news_view};

    ghost Value = { NewsView };

    ghost view = { λ n. news_view n.rows.items n.told.items n.undo.items n.outbox.sent n.fault n.outbox.nodes };

    ghost invariant = { λ n. IsNews n.rows.items n.told.items n.undo.items n.outbox.sent n.fault };
}

impl News {
    /// No event. There is a chain for each home, without events.
    pub fn new(alloc: Global, chains: Vec<Chain<Event>>) -> News
        requires { AreBlank chains.items }
        ensures { result ≡ record { done = []; sent = []; gone = []; nodes = length chains.items } }
    {
        News {
            rows: Vec::new(alloc),
            told: RecordBuffer::new(alloc),
            undo: Vec::new(alloc),
            outbox: Outbox::new(alloc, chains),
            fault: None,
        }
    }

    /// How many events there are.
    pub fn len(&self) -> usize
        ensures { result ≡ length self.now.done }
    {
        self.rows.len()
    }

    /// What is true of all: they are in the order of their keys, only the last one may have failed, and what they send is what
    /// lies in the chains.
    pub fn tells(&self)
        ensures ordered { Ascends done_key self.now.done }
        ensures last { OnlyLastFailed self.now.done }
        ensures sent { map (λ s. s.1) self.now.sent ≡ held_of self.now.done }
    {
        let _ = &self.rows;
    }

    /// The key of the event at a place, the first at place 0.
    pub fn key_at(&self, place: usize) -> Key
        requires { place < length self.now.done }
        ensures { slice_get (keys_of self.now.done) place ≡ Some result }
    {
        self.rows[place].event.key
    }

    /// The least stamp that they send, or `NO_STAMP`, in constant time.
    pub fn held_least(&self) -> u64
        ensures { result ≡ least_stamp NO_STAMP (held_of self.now.done) }
    {
        least_in(&self.rows)
    }

    /// If it is true, none failed.
    #[inline(always)]
    pub fn went(&self) -> bool
        ensures { IsTrue result → fault_of self.now.done ≡ None }
    {
        self.fault.is_none()
    }

    /// The key and the code of the event that failed, if one did, in constant time.
    pub fn faulted(&self) -> Option<(Key, u32)>
        ensures { result ≡ fault_of self.now.done }
    {
        let code = self.fault?;
        let last = self.rows.len() - 1;
        Some((self.rows[last].event.key, code))
    }

    /// Processes an event at an object, which is the last of all by its key. Answers the least stamp that it sends, or
    /// `NO_STAMP`. The sheet is written over. The event's own cell is the first that its messages take. Memory is taken only for
    /// what the lists and the pool lack; if none is left, the event comes back.
    pub fn process<M: SimulationModel>(
        &mut self,
        alloc: Global,
        model: &M,
        homes: &[u32],
        sheet: &mut Effect,
        pool: &mut CellPool<Event>,
        object: &mut Object,
        event: Cell<Event>,
    ) -> Result<u64, (OutOfMemory, Cell<Event>)>
        requires fires { CanFire (M.meaning model.now) homes.now self.old.nodes object.old event }
        requires takes { CanTake event.key self.old }
        requires whole { self.old.gone ≡ [] }
        ensures ok { IfOk result (λ least. HasJoined (M.meaning model.now) homes.now event object.old object.new self.old self.new least) }
        ensures lawful { OnOk result (IsTrue ((M.meaning model.now).lawful object.new.object object.new.cells.contents)) }
        ensures err { OnErr result (self.new ≡ self.old) }
        ensures same { OnErr result (IsSameObject object.old object.new) }
        ensures back { IfErr result (λ refused. refused.1 ≡ event) }
        ensures cells_kept { OnErr result (pool.old ≤ pool.new) }
        ensures cells { OnOk result (min (pool.old + 1) (2 ^ 60) + length self.old.sent ≤ pool.new + length self.new.sent) }
    {
        let room = make_room(
            alloc,
            &mut self.rows,
            &mut self.told,
            &mut self.undo,
            &mut self.outbox,
            pool,
        );
        let Ok(()) = room else {
            return Err((OutOfMemory, event));
        };
        let serial = object.sent();
        let from = self.undo.len();
        let fired = object.fire_into(model, sheet, event.get(), &mut self.undo);
        let Ok(ending) = fired else {
            return Err((OutOfMemory, event));
        };
        let before = least_in(&self.rows);
        let event = pool.recycle(event);
        match ending {
            Ending::Fails(code) => {
                self.fault = Some(code);
                let row = Row::new(event, before, 0, 0);
                self.rows.push_reserved(row);
                Ok(NO_STAMP)
            }
            Ending::Goes => {
                let sends = sheet.sends.as_slice();
                let least = hold_all(&mut self.outbox, pool, homes, &event.key, serial, sends);
                self.told.push_reserved(&event.key, &sheet.note);
                let changes = (self.undo.len() - from) as u32;
                let row = Row::new(event, before.min(least), changes, sends.len() as u32);
                self.rows.push_reserved(row);
                Ok(least)
            }
        }
    }

    /// How many of them a commit takes, which are the first ones. As a rule it takes all, and looks at the last one only.
    pub fn due(&self, horizon: u64, cut: &Option<Key>) -> usize
        ensures within { result ≤ length self.now.done }
        ensures taken { take result self.now.done ≡ due_of horizon cut.now self.now.done }
        ensures left { drop result self.now.done ≡ left_of horizon cut.now self.now.done }
    {
        self.tells();
        let mut due = self.len();
        while due > 0 {
            if is_due_at(horizon, cut, &self.key_at(due - 1)) {
                return due;
            }
            due -= 1;
        }
        0
    }

    /// Takes the last event back, into a slot, with a cell of the pool if it sends nothing. Takes no memory.
    #[inline(always)]
    pub fn pop(&mut self, cells: &mut CellPool<Event>, slot: &mut Contents)
        requires some { 0 < length self.old.done }
        requires few { AllByRecursion (λ d. length d.undo ≤ 16) self.old.done }
        requires cells { zeros self.old.done ≤ cells.old }
        ensures popped { HasPopped self.old self.new (done_in slot.new) }
        ensures kept { IsKept slot.new }
        ensures cells { zeros self.new.done ≤ cells.new }
    {
        let last = self.rows.len() - 1;
        let row = self.rows[last];
        let from = self.undo.len() - row.changes as usize;
        let verdict = verdict_at(&self.told, last, self.fault);
        let taken = take_sends(&mut self.outbox, row.sends);
        slot.fill(row.event, &self.undo[from..], taken, verdict, cells);
        self.rows.truncate(last);
        self.undo.truncate(from);
        self.fault = None;
    }

    /// Whether an event of this key can come behind them: it comes after the last one, none failed, and they are few.
    pub fn takes(&self, key: &Key) -> bool
        ensures { result ≡ true → CanTake key.now self.now }
    {
        self.tells();
        let len = self.len();
        if len == 0 {
            return true;
        }
        if len >= MOST || self.sent() >= MOST || self.faulted().is_some() {
            return false;
        }
        self.key_at(len - 1).is_before(key)
    }

    /// Whether each comes before a key, in constant time.
    pub fn ends_before(&self, key: &Key) -> bool
        ensures { IsTrue result → AllByRecursion (λ d. key_lt d.event.key key.now ≡ true) self.now.done }
    {
        self.tells();
        let len = self.len();
        if len == 0 {
            return true;
        }
        self.key_at(len - 1).is_before(key)
    }

    /// How many messages they sent.
    pub fn sent(&self) -> usize
        ensures { result ≡ length self.now.sent }
    {
        self.outbox.len()
    }

    /// Forgets what is told of those that were taken back, where none is left.
    pub fn forget(&mut self)
        requires { self.old.done ≡ [] }
        ensures { self.new ≡ record self.old { gone = [] } }
    {
        self.told.clear();
    }

    /// Hands out what is told of all events, in the order of their keys, and their messages in the chains of their homes. No
    /// event is touched.
    pub fn hand_out(&mut self, done: &mut RecordBuffer, chains: &mut Vec<Chain<Event>>)
        requires went { fault_of self.old.done ≡ None }
        requires whole { self.old.gone ≡ [] }
        requires told { done.old.items ≡ [] }
        requires blank { AreBlank chains.old.items }
        requires long { length chains.old.items ≡ self.old.nodes }
        ensures told { done.new.items ≡ told_all self.old.done }
        ensures parcels { (node : ℕ) → chain_at chains.new.items node ≡ parcel node self.old.sent }
        ensures long { length chains.new.items ≡ self.old.nodes }
        ensures done { self.new.done ≡ [] }
        ensures sent { self.new.sent ≡ [] }
        ensures gone { self.new.gone ≡ [] }
        ensures nodes { self.new.nodes ≡ self.old.nodes }
    {
        self.rows.clear();
        self.undo.clear();
        mem::swap(&mut self.told, done);
        self.outbox.hand_out(chains);
    }

    /// Lets all events go, and hands out their messages in the chains of their homes. What is told of them can be read until
    /// it is forgotten. No event is touched.
    pub fn send_out(&mut self, chains: &mut Vec<Chain<Event>>)
        requires went { fault_of self.old.done ≡ None }
        requires blank { AreBlank chains.old.items }
        requires long { length chains.old.items ≡ self.old.nodes }
        ensures parcels { (node : ℕ) → chain_at chains.new.items node ≡ parcel node self.old.sent }
        ensures long { length chains.new.items ≡ self.old.nodes }
        ensures done { self.new.done ≡ [] }
        ensures sent { self.new.sent ≡ [] }
        ensures gone { self.new.gone ≡ told_all self.old.done ++ self.old.gone }
        ensures nodes { self.new.nodes ≡ self.old.nodes }
    {
        self.rows.clear();
        self.undo.clear();
        self.outbox.hand_out(chains);
    }

    /// What is told of events that are gone, where none is left.
    pub fn told(&self) -> &RecordBuffer
        requires { self.now.done ≡ [] }
        ensures { result.now.items ≡ self.now.gone }
    {
        &self.told
    }
}

/// Makes room for one event more.
fn make_room(
    alloc: Global,
    rows: &mut Vec<Row>,
    told: &mut RecordBuffer,
    undo: &mut Vec<Change>,
    outbox: &mut Outbox,
    pool: &mut CellPool<Event>,
) -> Result<(), OutOfMemory>
    ensures rows { rows.new.items ≡ rows.old.items }
    ensures told { told.new.items ≡ told.old.items }
    ensures undo { undo.new.items ≡ undo.old.items }
    ensures sent { outbox.new.sent ≡ outbox.old.sent }
    ensures nodes { outbox.new.nodes ≡ outbox.old.nodes }
    ensures row_room { OnOk result (vec_len rows.new + 1 ≤ vec_capacity rows.new) }
    ensures told_room { OnOk result (1 ≤ told.new.room) }
    ensures undo_room { OnOk result (vec_len undo.new + 16 ≤ vec_capacity undo.new) }
    ensures sent_room { OnOk result (8 ≤ outbox.new.room) }
    ensures cells { OnOk result (8 ≤ pool.new) }
    ensures cells_kept { pool.old ≤ pool.new }
{
    let Ok(()) = rows.reserve(1) else {
        return Err(OutOfMemory);
    };
    let Ok(()) = told.reserve(1) else {
        return Err(OutOfMemory);
    };
    let Ok(()) = undo.reserve(16) else {
        return Err(OutOfMemory);
    };
    let Ok(()) = outbox.reserve(8) else {
        return Err(OutOfMemory);
    };
    pool.reserve(alloc, 8)
}

/// The least stamp that these send, or `NO_STAMP`.
fn least_in(rows: &[Row]) -> u64
    ensures { result ≡ least_after NO_STAMP rows.now }
{
    match rows.last() {
        Some(last) => last.least,
        None => NO_STAMP,
    }
}
