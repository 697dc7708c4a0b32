//! Homes that many nodes are to share.
ghost use Rattle.std.specs.Prelude.{◌≡◌, ◌<◌, ◌+◌, length, IfOk};
ghost use Rattle.std.specs.Arc.{arc_value};

use model_core::OutOfMemory;
use node_core::Homes;
use std::alloc::Global;
use std::marker::Model;
use std::sync::Arc;

/// Homes, shared so many times more.
#[derive(Drop)]
pub struct Copies {
    one: Arc<Homes>,
    more: Vec<Arc<Homes>>,
}

impl Model for Copies {
    ghost use Rattle.std.specs.Prelude.{◌≡◌, length};
    ghost use Rattle.std.specs.Arc.{arc_value};
    ghost use Rattle.std.specs.List.{AllByRecursion};
    ghost use Rattle.object_moves.specs.Copies.{CopiesView};

    ghost Value = { CopiesView };

    ghost view = { λ c. record { homes = arc_value c.one; left = length c.more.items } };

    ghost invariant = { λ c. AllByRecursion (λ a. arc_value a ≡ arc_value c.one) c.more.items };
}

impl Copies {
    /// Homes, to be taken so many times.
    pub fn new(alloc: Global, homes: Homes, count: usize) -> Result<Copies, OutOfMemory>
        ensures homes { IfOk result (λ copies. copies.homes ≡ homes) }
        ensures left { IfOk result (λ copies. copies.left ≡ count) }
    {
        let one = Arc::new(alloc, homes)?;
        let mut more = Vec::with_capacity(alloc, count)?;
        for _ in 0..count {
            let copy = Arc::clone(&one)?;
            more.push(copy)?;
        }
        Ok(Copies { one, more })
    }

    /// Takes the homes once.
    pub fn take(&mut self) -> Arc<Homes>
        requires { 0 < self.old.left }
        ensures value { arc_value result ≡ self.old.homes }
        ensures left { self.new.left + 1 ≡ self.old.left }
        ensures same { self.new.homes ≡ self.old.homes }
    {
        let Some(homes) = self.more.pop() else {
            unreachable!()
        };
        homes
    }

    /// Takes the homes a last time.
    pub fn into_last(self) -> Arc<Homes>
        ensures { arc_value result ≡ self.homes }
    {
        let Copies { one, more: _ } = self;
        one
    }
}
