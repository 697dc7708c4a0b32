//! How far objects have gone.
ghost use Rattle.std.specs.Prelude.{◌≤◌, ◌≡◌, ℕ};
ghost use Rattle.event_log.specs.Items.{placed};
ghost use Rattle.event_log.specs.Latest.{AreBounded, bound_of};

use crate::items::Items;
use event_key::{Key, NO_STAMP};
use model_core::OutOfMemory;
use std::alloc::Global;
use std::marker::Model;

/// How many bounds there are: a prime, so that objects at equal distances have different ones.
const BOUNDS: usize = 1021;

/// For each object an upper bound of the stamps of what it has processed. Objects whose numbers agree modulo `BOUNDS` share one.
/// Until there is a table all are `NO_STAMP`.
#[derive(Drop)]
pub struct Latest {
    bounds: Vec<u64>,
}

impl Model for Latest {
    ghost use Rattle.std.specs.Prelude.{ℕ, List};

    ghost Value = { List ℕ };

    ghost view = { λ l. l.bounds.items };
}

impl Latest {
    /// There is no table.
    pub fn new(alloc: Global) -> Latest {
        Latest {
            bounds: Vec::new(alloc),
        }
    }

    /// Makes a table if there is none, where nothing is processed.
    pub fn begin(&mut self) -> Result<(), OutOfMemory> {
        self.bounds.resize(BOUNDS, 0)?;
        Ok(())
    }

    /// No event that the object has processed has a later stamp.
    #[inline(always)]
    pub fn of(&self, object: u32) -> u64
        ensures { result ≡ bound_of self.now object }
    {
        match self.bounds.get(object as usize % BOUNDS) {
            Some(bound) => *bound,
            None => NO_STAMP,
        }
    }

    /// An event of this key is processed.
    #[inline(always)]
    pub fn raise(&mut self, key: &Key)
        ensures reached { key.now.stamp ≤ bound_of self.new key.now.dest }
        ensures kept { (object : ℕ) → bound_of self.old object ≤ bound_of self.new object }
    {
        let stamp = key.stamp;
        let place = key.dest as usize % BOUNDS;
        if place < self.bounds.len() {
            self.bounds[place] = stamp.max(self.bounds[place]);
        }
    }

    /// All these are processed.
    pub fn raise_all(&mut self, items: &Items)
        ensures reached { AreBounded self.new (placed items.now.items) }
        ensures kept { (object : ℕ) → bound_of self.old object ≤ bound_of self.new object }
    {
        for place in 0..items.len() {
            self.raise(&items.at(place).key);
        }
    }
}
