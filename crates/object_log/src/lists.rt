//! Lists of changes that serve one processed event after another.
ghost use Rattle.std.specs.Prelude.{◌≡◌, ◌+◌, ◌-◌, ◌<◌, ◌≤◌, IfOk, OnOk, OnErr};

use model_core::{Change, OutOfMemory};
use std::alloc::Global;
use std::marker::Model;

/// Lists of changes that are used no more, each with the memory that it had. Contracts see how many are handed out, and how
/// many are kept.
#[derive(Drop)]
pub struct UndoLists {
    // None until the first list is made, since a vector holds its allocator
    lists: Option<Vec<Vec<Change>>>,
    // how many are handed out, which find room when they come back
    lent: usize,
}

impl Model for UndoLists {
    ghost use Rattle.object_log.specs.Pools.{UndoListsView, kept_in, FindRoom};

    ghost Value = { UndoListsView };

    ghost view = { λ l. record { lent = l.lent; kept = kept_in l.lists } };

    ghost invariant = { λ l. FindRoom l.lists l.lent };
}

impl UndoLists {
    /// No list.
    pub fn new() -> UndoLists
        ensures { result ≡ record { lent = 0; kept = 0 } }
    {
        UndoLists {
            lists: None,
            lent: 0,
        }
    }

    /// A list of these changes. Memory is taken only where the lists that came back are too few or too short.
    pub fn copy_of(&mut self, alloc: Global, changes: &[Change]) -> Result<Vec<Change>, OutOfMemory>
        ensures list { IfOk result (λ list. list.items ≡ changes.now) }
        ensures lent { OnOk result (self.new.lent ≡ self.old.lent + 1) }
        ensures refused { OnErr result (self.new.lent ≡ self.old.lent) }
        ensures kept { self.old.kept ≤ self.new.kept + 1 }
        ensures none_lost { OnErr result (self.old.kept ≤ self.new.kept) }
    {
        let mut list = self.lend(alloc)?;
        list.clear();
        if list.extend_from_slice(changes).is_err() {
            self.give_back(list);
            return Err(OutOfMemory);
        }
        Ok(list)
    }

    /// A list, whatever it holds.
    fn lend(&mut self, alloc: Global) -> Result<Vec<Change>, OutOfMemory>
        ensures lent { OnOk result (self.new.lent ≡ self.old.lent + 1) }
        ensures refused { OnErr result (self.new ≡ self.old) }
        ensures kept { self.old.kept ≤ self.new.kept + 1 }
    {
        let room = self.lent + 1;
        let Some(lists) = &mut self.lists else {
            self.lists = Some(Vec::with_capacity(alloc, room)?);
            self.lent = room;
            return Ok(Vec::new(alloc));
        };
        if let Some(list) = lists.pop() {
            self.lent = room;
            return Ok(list);
        }
        lists.reserve(room)?;
        self.lent = room;
        Ok(Vec::new(alloc))
    }

    /// Keeps a list that is used no more.
    pub fn give_back(&mut self, list: Vec<Change>)
        ensures lent { self.new.lent ≡ self.old.lent - 1 }
        ensures kept { 0 < self.old.lent → self.new.kept ≡ self.old.kept + 1 }
        ensures none_lost { self.old.kept ≤ self.new.kept }
    {
        self.lent = self.lent.saturating_sub(1);
        if let Some(lists) = &mut self.lists
            && lists.len() < lists.capacity()
        {
            lists.push_reserved(list);
        }
    }
}
