//! Short lists that are written again and again.
ghost use Rattle.std.specs.Prelude.{◌≡◌, ◌<◌, [], ◌∷◌, ◌++◌, length, IfOk};

use delta_exchange::OutOfMemory;
use std::alloc::Global;
use std::marker::Model;

/// At most `CAP` values in order. It has room for all of them from the start, so only `new` takes memory.
#[derive(Drop)]
pub struct Few<T, const CAP: usize> {
    items: Vec<T>,
}

impl<T, const CAP: usize> Model for Few<T, CAP> {
    ghost use Rattle.std.specs.Prelude.{List, ◌≤◌};
    ghost use Rattle.std.specs.Vec.{vec_capacity};

    ghost Value = { List T };

    ghost view = { λ few. few.items.items };

    ghost invariant = { λ few. CAP ≤ vec_capacity few.items };
}

impl<T, const CAP: usize> Few<T, CAP> {
    /// No value.
    pub fn new(alloc: Global) -> Result<Few<T, CAP>, OutOfMemory>
        ensures { IfOk result (λ few. few ≡ []) }
    {
        let items = Vec::with_capacity(alloc, CAP)?;
        Ok(Few { items })
    }

    /// One value more, after the others.
    pub fn push(&mut self, value: T)
        requires { length self.old < CAP }
        ensures { self.new ≡ self.old ++ value ∷ [] }
    {
        self.items.push_reserved(value);
    }

    /// Drops all values, and keeps the room.
    pub fn clear(&mut self)
    where
        T: Drop,
        ensures { self.new ≡ [] }
    {
        self.items.clear();
    }

    /// The values, to read.
    pub fn as_slice(&self) -> &[T]
        ensures { result.now ≡ self.now }
    {
        self.items.as_slice()
    }
}
