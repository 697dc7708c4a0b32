//! All that is processed: what is carried, and the news.
ghost use Rattle.std.specs.Prelude.{◌≡◌, ℕ, List, ◌<◌, ◌≤◌, ◌+◌, ◌^◌, [], ◌++◌, filter, nat_lt, length, map, take, slice_get, vec_len, vec_capacity, IfOk, IfErr, IfSome, IfNone, OnOk, OnErr, IsTrue, Some, None, true, false};
ghost use Rattle.std.specs.List.{AllByRecursion, remove};
ghost use Rattle.event_key.specs.Keys.{key_lt};
ghost use Rattle.event_key.specs.declared.stamp.TheConstants.{NO_STAMP};
ghost use Rattle.key_order.specs.Ascending.{Ascends};
ghost use Rattle.key_order.specs.Due.{is_due};
ghost use Rattle.key_order.specs.Keys.{times};
ghost use Rattle.key_order.specs.Stamps.{least_stamp};
ghost use Rattle.model_core.specs.Meaning.{Meaning};
ghost use Rattle.object_log.specs.Carrying.{Placed, placed_key};
ghost use Rattle.object_log.specs.Logs.{fault_of, held_of};
ghost use Rattle.model_core.specs.declared.event.Event.{Event};
ghost use Rattle.object_log.specs.Objects.{HasUndone, IsNewest, IsSameObject};
ghost use Rattle.object_log.specs.Weave.{weave};
ghost use Rattle.event_log.specs.Faults.{lesser_fault};
ghost use Rattle.event_log.specs.Items.{placed};
ghost use Rattle.event_log.specs.Keeping.{IsTakenBack};
ghost use Rattle.event_log.specs.Moves.{other_items, own_items, shifted};
ghost use Rattle.event_log.specs.Outboxes.{AreBlank};
ghost use Rattle.event_log.specs.Committing.{CanCommit, HasCommittedDue};
ghost use Rattle.event_log.specs.News.{CanFire};
ghost use Rattle.event_log.specs.Processing.{AreHomed, CanJoin, HasCome, IsSameProcessed};

use crate::carried::Carried;
use crate::committing::{commit_first, due_in};
use crate::items::Items;
use crate::news::News;
use crate::reading::push_below;
use event_chain::{Cell, CellPool, Chain};
use event_key::Key;
use model_core::model::Model as SimulationModel;
use model_core::{Effect, Event, OutOfMemory, RecordBuffer};
use object_log::Object;
use std::alloc::Global;
use std::marker::Model;

/// All that many objects have processed and not yet committed, in the order of the keys: what is carried over the last commit,
/// and the news. There is room for all news among what is carried, so that to carry them takes no memory.
#[derive(Drop)]
pub struct Processed {
    carried: Carried,
    news: News,
    // the places of the objects of the news
    places: Vec<u32>,
    // how many of the news send nothing, or more
    idle: usize,
    // empty cells, at least that many
    cells: CellPool<Event>,
}

impl Model for Processed {
    ghost use Rattle.event_log.specs.Processing.{IsProcessed, ProcessedView, processed_view};

    ghost Value = { ProcessedView };

    ghost view = { λ p. processed_view p.places.items p.news p.carried };

    ghost invariant = { λ p. IsProcessed p.places.items p.news p.carried p.idle p.cells };
}

impl Processed {
    /// No event. There is a chain for each home, without events.
    pub fn new(alloc: Global, chains: Vec<Chain<Event>>) -> Processed
        requires { AreBlank chains.items }
        ensures { result ≡ record { items = []; news = []; chained = []; nodes = length chains.items } }
    {
        Processed {
            carried: Carried::new(alloc),
            news: News::new(alloc, chains),
            places: Vec::new(alloc),
            idle: 0,
            cells: CellPool::new(),
        }
    }

    /// How many there are.
    pub fn len(&self) -> usize
        requires { length self.now.items < 2 ^ 60 }
        ensures { result ≡ length self.now.items }
    {
        self.carried.len() + self.news.len()
    }

    /// What is true of all: they are in the order of their keys.
    pub fn tells(&self)
        ensures { Ascends placed_key self.now.items }
    {
        let _ = &self.news;
    }

    /// The least stamp that they send, or `NO_STAMP`, in constant time.
    pub fn held_least(&self) -> u64
        ensures { result ≡ least_stamp NO_STAMP (held_of (map (λ p. p.done) self.now.items)) }
    {
        self.carried.held_least().min(self.news.held_least())
    }

    /// If it is true, none failed. In constant time.
    #[inline(always)]
    fn went(&self) -> bool
        ensures { IsTrue result → fault_of (map (λ p. p.done) self.now.items) ≡ None }
    {
        self.news.tells();
        if self.news.went() {
            return self.carried.went();
        }
        false
    }

    /// The key and the code of the first event that failed, if one did. In constant time if none did; else it looks at each carried
    /// event up to the first that failed, and at the last of the news.
    #[inline(always)]
    pub fn faulted(&self) -> Option<(Key, u32)>
        ensures { result ≡ fault_of (map (λ p. p.done) self.now.items) }
    {
        if self.went() {
            return None;
        }
        self.first_fault()
    }

    /// The key and the code of the first event that failed, if one did.
    #[inline(never)]
    fn first_fault(&self) -> Option<(Key, u32)>
        ensures { result ≡ fault_of (map (λ p. p.done) self.now.items) }
    {
        self.news.tells();
        lesser_fault(self.news.faulted(), self.carried.faulted())
    }

    /// The least key.
    pub fn first(&self) -> Option<Key>
        ensures some { IfSome result (λ key. slice_get (map placed_key self.now.items) 0 ≡ Some key) }
        ensures none { IfNone result (self.now.items ≡ []) }
    {
        let carried = self.carried.first();
        if self.news.len() == 0 {
            return carried;
        }
        self.news.tells();
        let news = self.news.key_at(0);
        let Some(key) = carried else {
            return Some(news);
        };
        if news.is_before(&key) {
            return Some(news);
        }
        Some(key)
    }

    /// Whether each comes before a key, in constant time.
    pub fn ends_before(&self, key: &Key) -> bool
        ensures { IsTrue result → AllByRecursion (λ p. key_lt (placed_key p) key.now ≡ true) self.now.items }
    {
        if self.carried.ends_before(key) {
            return self.news.ends_before(key);
        }
        false
    }

    /// Appends the keys below a horizon, in their order, or nothing where no memory is left.
    pub fn push_below(&self, horizon: u64, into: &mut Vec<Key>) -> Result<(), OutOfMemory>
        requires { length self.now.items < 2 ^ 60 }
        ensures ok { OnOk result (into.new.items ≡ into.old.items ++ filter (λ k. nat_lt k.stamp horizon) (map placed_key self.now.items)) }
        ensures err { OnErr result (into.new.items ≡ into.old.items) }
    {
        into.reserve(self.len())?;
        push_below(&self.carried, &self.news, horizon, into);
        Ok(())
    }

    /// Carries all news. Takes no memory.
    pub fn carry_all(&mut self)
        ensures same { IsSameProcessed self.old self.new }
        ensures news { self.new.news ≡ [] }
        ensures chained { self.new.chained ≡ [] }
    {
        self.carried
            .carry(&mut self.news, &mut self.places, &mut self.cells, 0);
        self.news.tells();
        self.news.forget();
        self.idle = 0;
    }

    /// Carries the news if an event of this key can't come behind them.
    fn make_ready(&mut self, key: &Key)
        ensures same { IsSameProcessed self.old self.new }
        ensures can { CanJoin key.now self.new }
        ensures homed { (homes : List ℕ) → AreHomed homes self.old.chained → AreHomed homes self.new.chained }
    {
        if !self.news.takes(key) {
            self.carry_all();
        }
    }

    /// Processes an event at an object that stands at a place. Answers the least stamp that it sends, or `NO_STAMP`. The sheet is
    /// written over. Memory is taken only for what the lists and the pool lack; if none is left, the event comes back.
    pub fn process<M: SimulationModel>(
        &mut self,
        alloc: Global,
        model: &M,
        homes: &[u32],
        sheet: &mut Effect,
        object: &mut Object,
        place: u32,
        event: Cell<Event>,
    ) -> Result<u64, (OutOfMemory, Cell<Event>)>
        requires fires { CanFire (M.meaning model.now) homes.now self.old.nodes object.old event }
        requires new { times placed_key event.key self.old.items ≡ 0 }
        ensures ok { IfOk result (λ least. HasCome (M.meaning model.now) event place object.old object.new self.old self.new least) }
        ensures err { OnErr result (IsSameProcessed self.old self.new) }
        ensures same { OnErr result (IsSameObject object.old object.new) }
        ensures back { IfErr result (λ refused. refused.1 ≡ event) }
        ensures nodes { self.new.nodes ≡ self.old.nodes }
        ensures homed { AreHomed homes.now self.old.chained → AreHomed homes.now self.new.chained }
    {
        self.make_ready(&event.get().key);
        self.join(alloc, model, homes, sheet, object, place, event)
    }

    /// Processes an event that can come behind the news.
    fn join<M: SimulationModel>(
        &mut self,
        alloc: Global,
        model: &M,
        homes: &[u32],
        sheet: &mut Effect,
        object: &mut Object,
        place: u32,
        event: Cell<Event>,
    ) -> Result<u64, (OutOfMemory, Cell<Event>)>
        requires can { CanJoin event.key self.old }
        requires fires { CanFire (M.meaning model.now) homes.now self.old.nodes object.old event }
        requires new { times placed_key event.key self.old.items ≡ 0 }
        ensures ok { IfOk result (λ least. HasCome (M.meaning model.now) event place object.old object.new self.old self.new least) }
        ensures err { OnErr result (self.new ≡ self.old) }
        ensures same { OnErr result (IsSameObject object.old object.new) }
        ensures back { IfErr result (λ refused. refused.1 ≡ event) }
        ensures nodes { self.new.nodes ≡ self.old.nodes }
        ensures homed { AreHomed homes.now self.old.chained → AreHomed homes.now self.new.chained }
    {
        let news = self.news.len();
        let room = make_room(
            alloc,
            &mut self.carried,
            &mut self.places,
            &mut self.cells,
            news,
            self.idle,
        );
        let Ok(()) = room else {
            return Err((OutOfMemory, event));
        };
        let sent = self.news.sent();
        match self
            .news
            .process(alloc, model, homes, sheet, &mut self.cells, object, event)
        {
            Ok(least) => {
                self.places.push_reserved(place);
                self.idle = idle_after(self.idle, self.news.sent() - sent);
                Ok(least)
            }
            Err(refused) => Err(refused),
        }
    }

    /// Commits each event that is due: what is told of them goes to `told` in the order of their keys, and their messages to the
    /// chains of their homes. The other news are carried. If all news are due and nothing carried is, no event is touched. Else
    /// the records of the news that are due are copied, and each carried event that is due takes a step.
    pub fn commit(
        &mut self,
        homes: &[u32],
        horizon: u64,
        cut: &Option<Key>,
        told: &mut RecordBuffer,
        out: &mut Vec<Chain<Event>>,
    ) -> Result<(), OutOfMemory>
        requires due { CanCommit homes.now horizon cut.now self.old }
        requires told { told.old.items ≡ [] }
        requires blank { AreBlank out.old.items }
        requires long { length out.old.items ≡ self.old.nodes }
        ensures ok { OnOk result (HasCommittedDue homes.now horizon cut.now self.old self.new told.new.items out.new.items) }
        ensures err { OnErr result (self.new ≡ self.old) }
        ensures told { OnErr result (told.new.items ≡ []) }
        ensures blank { OnErr result (AreBlank out.new.items) }
        ensures long { length out.new.items ≡ self.old.nodes }
        ensures nodes { self.new.nodes ≡ self.old.nodes }
    {
        self.news.tells();
        let news = self.news.due(horizon, cut);
        let carried = due_in(&self.carried, horizon, cut);
        if carried == 0 && news == self.news.len() {
            self.news.hand_out(told, out);
            self.places.clear();
            self.idle = 0;
            return Ok(());
        }
        let Ok(()) = told.reserve(carried + news) else {
            return Err(OutOfMemory);
        };
        self.carried
            .carry(&mut self.news, &mut self.places, &mut self.cells, news);
        self.news.tells();
        self.news.send_out(out);
        commit_first(
            self.news.told(),
            news,
            &mut self.carried,
            carried,
            &mut self.cells,
            homes,
            told,
            out,
        );
        self.news.forget();
        self.places.clear();
        self.idle = 0;
        Ok(())
    }

    /// The key of the event at a place of the list, and the place of its object.
    pub fn at(&self, index: usize) -> (Key, u32)
        requires news { self.now.news ≡ [] }
        requires index { index < length self.now.items }
        ensures { (p : Placed) × (slice_get self.now.items index ≡ Some p) × (result.0 ≡ placed_key p) × (result.1 ≡ p.place) }
    {
        self.carried.at(index)
    }

    /// Takes the event at a place of the list out and back, at its object, which fired it last of those that it has not taken
    /// back. It moves the shorter side.
    #[inline(always)]
    pub fn undo(&mut self, index: usize, object: &mut Object) -> Cell<Event>
        requires news { self.old.news ≡ [] }
        requires index { index < length self.old.items }
        requires newest { (p : Placed) → slice_get self.old.items index ≡ Some p → IsNewest object.old p.done }
        ensures left { self.new.items ≡ remove self.old.items index }
        ensures undone { (p : Placed) × (slice_get self.old.items index ≡ Some p) × IsTakenBack p.done object.old object.new result }
        ensures same { self.new ≡ record self.old { items = self.new.items } }
    {
        self.carried.undo(index, object, &mut self.cells)
    }

    /// Takes the events of an object out, and puts them into a list that has room for them. What stood at one place has another
    /// then.
    pub fn part(&mut self, object: u32, from: usize, to: u32, own: &mut Items)
        requires news { self.old.news ≡ [] }
        requires empty { own.old.items ≡ [] }
        requires room { length (own_items object self.old.items) ≤ own.old.capacity }
        ensures items { self.new.items ≡ map (shifted from to) (other_items object self.old.items) }
        ensures own { placed own.new.items ≡ own_items object self.old.items }
        ensures capacity { own.new.capacity ≡ own.old.capacity }
        ensures same { self.new ≡ record self.old { items = self.new.items } }
    {
        self.carried.part(object, from, to, own);
    }

    /// Puts all into a list of others, which has room for them, and keeps that. The others stood at place 0, and stand at another
    /// now.
    pub fn absorb(&mut self, items: Items, to: u32)
        requires news { self.old.news ≡ [] }
        requires ordered { Ascends placed_key (weave placed_key self.old.items (map (shifted 0 to) (placed items.items))) }
        requires room { length self.old.items + length items.items ≤ items.capacity }
        ensures items { self.new.items ≡ weave placed_key self.old.items (map (shifted 0 to) (placed items.items)) }
        ensures same { self.new ≡ record self.old { items = self.new.items } }
    {
        self.carried.absorb(items, to);
    }
}

/// The fault with the lesser key, as far as they are there.
fn lesser_fault(one: Option<(Key, u32)>, other: Option<(Key, u32)>) -> Option<(Key, u32)>
    ensures { result ≡ lesser_fault one other }
{
    let Some((key, code)) = one else {
        return other;
    };
    let Some((other_key, other_code)) = other else {
        return Some((key, code));
    };
    if key.is_before(&other_key) {
        return Some((key, code));
    }
    Some((other_key, other_code))
}

/// Makes room for one event more, where so many are news and at most so many of them send nothing.
fn make_room(
    alloc: Global,
    carried: &mut Carried,
    places: &mut Vec<u32>,
    cells: &mut CellPool<Event>,
    news: usize,
    idle: usize,
) -> Result<(), OutOfMemory>
    requires few { news + 8 < 2 ^ 60 }
    requires idle { idle ≤ news }
    ensures items { carried.new.items ≡ carried.old.items }
    ensures room_kept { carried.old.room ≤ carried.new.room }
    ensures places { places.new.items ≡ places.old.items }
    ensures cells_kept { cells.old ≤ cells.new }
    ensures room { OnOk result (news + 1 ≤ carried.new.room) }
    ensures places_room { OnOk result (vec_len places.new + 1 ≤ vec_capacity places.new) }
    ensures cells { OnOk result (idle + 8 ≤ cells.new) }
{
    let Ok(()) = carried.reserve(news + 1) else {
        return Err(OutOfMemory);
    };
    let Ok(()) = places.reserve(1) else {
        return Err(OutOfMemory);
    };
    cells.reserve(alloc, idle + 8)
}

/// How many events send nothing, with one more that sends so many messages.
fn idle_after(idle: usize, sends: usize) -> usize
    requires { idle < 2 ^ 60 }
    ensures some { 0 < sends → result ≡ idle }
    ensures none { sends ≡ 0 → result ≡ idle + 1 }
{
    match sends {
        0 => idle + 1,
        _ => idle,
    }
}
