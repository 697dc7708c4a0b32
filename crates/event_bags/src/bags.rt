//! Bags of values that share their memory.
ghost use Rattle.std.specs.Prelude.{◌≡◌, ◌≢◌, ◌↔◌, true, ◌+◌, ◌<◌, ◌≤◌, [], ◌∷◌, ◌++◌, length, slice_set, slice_index_or, replicate, IfOk, OnOk, OnErr, IfSome, IfNone, OnSome};
ghost use Rattle.std.specs.List.{sum_by};
ghost use Rattle.event_bags.specs.Views.{BagsView, TakesFront, HasFront, MovesFront};

use delta_exchange::OutOfMemory;
use std::alloc::Global;
use std::marker::Model;

/// The link of the last place of a bag.
const NONE: usize = usize::MAX;

/// Bags of values, numbered from 0 on. All values lie in one vector, each with the number of the place of the next
/// value of its bag. Contracts see the list of bags, each a list of values from the front on, and for how many more
/// values there is room certain.
#[derive(Drop)]
pub struct Bags<T> {
    // the place of the front of each bag
    heads: Vec<usize>,
    items: Vec<T>,
    links: Vec<usize>,
    // the first of the places that no bag uses, which are linked too, and how many they are
    free: usize,
    unused: usize,
}

impl<T> Model for Bags<T> {
    ghost use Rattle.std.specs.Prelude.{◌+◌, length, vec_capacity};
    ghost use Rattle.event_bags.specs.Views.{BagsView, bags_of, room_of};
    ghost use Rattle.event_bags.specs.Chains.{AreBags};

    ghost Value = { BagsView T };

    ghost view = { λ s. record {
      bags = bags_of s.items.items s.links.items s.heads.items;
      spare = s.unused + room_of (vec_capacity s.items) (vec_capacity s.links) (length s.links.items);
    } };

    ghost invariant = { λ s. AreBags s.items.items s.links.items s.heads.items s.free s.unused };
}

impl<T> Bags<T> {
    /// So many bags, all without values.
    pub fn new(alloc: Global, bags: usize) -> Result<Bags<T>, OutOfMemory>
        ensures { IfOk result (λ new. new.bags ≡ replicate bags []) }
    {
        let heads = Vec::from_elem(alloc, NONE, bags)?;
        Ok(Bags {
            heads,
            items: Vec::new(alloc),
            links: Vec::new(alloc),
            free: NONE,
            unused: 0,
        })
    }

    /// Makes room for so many more values.
    pub fn reserve(&mut self, more: usize) -> Result<(), OutOfMemory>
        ensures room { OnOk result (more ≤ self.new.spare) }
        ensures same { self.new.bags ≡ self.old.bags }
        ensures never_less { self.old.spare ≤ self.new.spare }
    {
        if more <= self.unused {
            return Ok(());
        }
        self.grow(more)
    }

    /// Finds room for so many more values.
    #[inline(never)]
    fn grow(&mut self, more: usize) -> Result<(), OutOfMemory>
        ensures room { OnOk result (more ≤ self.new.spare) }
        ensures same { self.new.bags ≡ self.old.bags }
        ensures never_less { self.old.spare ≤ self.new.spare }
    {
        let fresh = more.saturating_sub(self.unused);
        self.items.reserve(fresh)?;
        self.links.reserve(fresh)?;
        Ok(())
    }

    /// How many values there are in all bags.
    pub fn len(&self) -> usize
        ensures { result ≡ sum_by length self.now.bags }
    {
        self.links.len() - self.unused
    }

    /// The value at the front of a bag, if there is one.
    pub fn front(&self, bag: usize) -> Option<&T>
        requires { bag < length self.now.bags }
        ensures some { IfSome result (λ value. HasFront self.now.bags bag value.now) }
        ensures none { IfNone result (slice_index_or self.now.bags bag [] ≡ []) }
    {
        let at = self.heads[bag];
        if at == NONE {
            return None;
        }
        Some(&self.items[at])
    }

    /// Moves the value at the front of a bag that isn't empty to the front of another. It stays at its place.
    pub fn move_front(&mut self, from: usize, to: usize)
        requires from { from < length self.old.bags }
        requires to { to < length self.old.bags }
        requires some { slice_index_or self.old.bags from [] ≢ [] }
        ensures moves { (value : T) → HasFront self.old.bags from value → MovesFront self.old.bags self.new.bags from to value }
        ensures spare { self.new.spare ≡ self.old.spare }
    {
        let at = self.heads[from];
        self.heads[from] = self.links[at];
        self.links[at] = self.heads[to];
        self.heads[to] = at;
    }

    /// Whether a bag has no value.
    pub fn is_empty(&self, bag: usize) -> bool
        requires { bag < length self.now.bags }
        ensures { result ≡ true ↔ slice_index_or self.now.bags bag [] ≡ [] }
    {
        self.heads[bag] == NONE
    }
}

impl<T: Copy> Bags<T> {
    /// Puts a value to the front of a bag. Takes no memory.
    pub fn push(&mut self, bag: usize, value: T)
        requires bag { bag < length self.old.bags }
        requires room { 1 ≤ self.old.spare }
        ensures bags { self.new.bags ≡ slice_set self.old.bags bag (value ∷ slice_index_or self.old.bags bag []) }
        ensures spare { self.new.spare + 1 ≡ self.old.spare }
    {
        let front = self.heads[bag];
        let at = self.free;
        if at == NONE {
            self.heads[bag] = self.links.len();
            self.items.push_reserved(value);
            self.links.push_reserved(front);
            return;
        }
        self.free = self.links[at];
        self.unused -= 1;
        self.items[at] = value;
        self.links[at] = front;
        self.heads[bag] = at;
    }

    /// Takes the value at the front of a bag, if there is one. Takes no memory.
    pub fn pop(&mut self, bag: usize) -> Option<T>
        requires { bag < length self.old.bags }
        ensures none { IfNone result ((slice_index_or self.old.bags bag [] ≡ []) × (self.new ≡ self.old)) }
        ensures some { IfSome result (λ value. TakesFront self.old.bags self.new.bags bag value) }
        ensures spare { OnSome result (self.new.spare ≡ self.old.spare + 1) }
    {
        let at = self.heads[bag];
        if at == NONE {
            return None;
        }
        let value = self.items[at];
        self.heads[bag] = self.links[at];
        self.links[at] = self.free;
        self.free = at;
        self.unused += 1;
        Some(value)
    }

    /// Appends the values of a bag, from its front on, and leaves it without any. After a refusal all bags are as they were.
    pub fn take_all(&mut self, bag: usize, into: &mut Vec<T>) -> Result<(), OutOfMemory>
        requires { bag < length self.old.bags }
        ensures taken { OnOk result (into.new.items ≡ into.old.items ++ slice_index_or self.old.bags bag []) }
        ensures bags { OnOk result (self.new.bags ≡ slice_set self.old.bags bag []) }
        ensures spare { OnOk result (self.new.spare ≡ self.old.spare + length (slice_index_or self.old.bags bag [])) }
        ensures err { OnErr result (self.new ≡ self.old) }
    {
        let front = self.heads[bag];
        if front == NONE {
            return Ok(());
        }
        let before = into.len();
        let mut last = front;
        loop {
            into.reserve(1)?;
            into.push_reserved(self.items[last]);
            let next = self.links[last];
            if next == NONE {
                break;
            }
            last = next;
        }
        self.links[last] = self.free;
        self.free = front;
        self.heads[bag] = NONE;
        self.unused += into.len() - before;
        Ok(())
    }
}
