//! The deque of a worker, whose tasks thieves may take.
ghost use Rattle.std.specs.Prelude.{◌≡◌, ◌+◌, ◌-◌, ◌<◌, [], ◌∷◌, ◌++◌, All, IfOk, OnOk};
ghost use Rattle.steal_pool.specs.Tallies.{tally, IsEmptied, WHOLE};
ghost use Rattle.steal_pool.specs.Ends.{IsFresh, mark, with_part_of, without_part};
ghost use Rattle.steal_pool.specs.Turns.{Does};

use crate::tally::{Part, Puts, Rule, Steals, Takes, Tally};
use crate::task::Task;
use crate::turn::Turn;
use crossbeam_deque::{Pass, Steal, Stealer, Worker};
use delta_exchange::OutOfMemory;
use std::alloc::Global;
use std::marker::Model;

/// How often a thief asks a deque before it leaves it.
const MOST_ASKS: u32 = 64;

/// A deque of tasks: its owner puts tasks in at the back, and all take them from the front. Contracts see which deque it is,
/// and what its owner knows of it.
#[derive(Drop)]
pub struct Deque<T> {
    owner: Worker<Task<T>, Global, Tally<T>, Rule>,
}

impl<T> Model for Deque<T> {
    ghost use Rattle.std.specs.Prelude.{◌≡◌};
    ghost use Rattle.crossbeam_deque.specs.Handles.{worker_deque, worker_flavor, worker_view};
    ghost use Rattle.steal_pool.specs.Ends.{End};

    ghost Value = { End T };

    ghost view = { λ deque. record { deque = worker_deque deque.owner; knows = worker_view deque.owner } };

    ghost invariant = { λ deque. worker_flavor deque.owner ≡ 0 };
}

/// A thief's pass to a deque. Contracts see which deque it is, and what the thief knows of it.
#[derive(Drop)]
pub struct Victim<T> {
    stealer: Stealer<Task<T>, Global, Tally<T>, Rule>,
    pass: Pass<Task<T>, Tally<T>>,
}

impl<T> Model for Victim<T> {
    ghost use Rattle.crossbeam_deque.specs.Handles.{IsPassOf, stealer_deque};
    ghost use Rattle.steal_pool.specs.Ends.{End};

    ghost Value = { End T };

    ghost view = { λ victim. record { deque = stealer_deque victim.stealer; knows = victim.pass.me.view.client } };

    ghost invariant = { λ victim. IsPassOf (stealer_deque victim.stealer) victim.pass };
}

impl<T: Drop> Deque<T> {
    /// An empty deque, with room for so many tasks at first.
    pub fn new(alloc: Global, room: usize) -> Result<Deque<T>, OutOfMemory>
        ensures { IfOk result (λ deque. deque.knows ≡ tally WHOLE [] []) }
    {
        let owner = Worker::fifo_as(alloc, room)?;
        Ok(Deque { owner })
    }
}

impl<T: Turn> Deque<T> {
    /// Puts a task in at the back. A task that is refused is gone.
    pub fn put(&mut self, task: Task<T>) -> Result<(), OutOfMemory>
        requires { self.old.knows.parts ≡ WHOLE }
        ensures { OnOk result (self.new ≡ record self.old { knows = tally WHOLE (self.old.knows.put ++ task ∷ []) self.old.knows.taken }) }
    {
        match self.owner.push_as::<Puts>(task) {
            Ok(()) => Ok(()),
            Err(_) => Err(OutOfMemory),
        }
    }

    /// A pass for a thief, which gets one part.
    pub fn victim(&mut self) -> Result<Victim<T>, OutOfMemory>
        requires { 1 < self.old.knows.parts }
        ensures mark { mark self.new ≡ mark self.old }
        ensures left { OnOk result (self.new ≡ without_part self.old) }
        ensures made { IfOk result (λ victim. (mark victim ≡ mark self.old) × IsFresh 1 victim) }
    {
        let stealer = self.owner.stealer()?;
        let pass = self.owner.another::<Part>();
        Ok(Victim { stealer, pass })
    }

    /// Does its tasks until it is empty.
    pub fn empty(&mut self, done: &mut Vec<Task<T>>) -> Result<(), OutOfMemory>
        requires part { 0 < self.old.knows.parts }
        requires ready { All (λ task. T.ready task.turn) self.old.knows.put }
        ensures deque { self.new.deque ≡ self.old.deque }
        ensures does { OnOk result (Does T.turned self.old.knows self.new.knows done.old.items done.new.items) }
        ensures emptied { OnOk result (IsEmptied self.new.knows) }
    {
        while let Some(task) = self.owner.pop_as::<Takes>() {
            done.push(task.run())?;
        }
        Ok(())
    }

    /// Takes back the pass of a thief.
    pub fn take_back(&mut self, victim: Victim<T>)
        requires part { 0 < self.old.knows.parts }
        requires deque { victim.deque ≡ self.old.deque }
        ensures { self.new ≡ with_part_of self.old victim }
    {
        let Victim { stealer: _, pass } = victim;
        self.owner.absorb::<Part>(pass);
    }
}

impl<T: Turn> Victim<T> {
    /// Steals tasks and does them, until the deque is found empty or was asked many times.
    pub fn rob(&mut self, done: &mut Vec<Task<T>>) -> Result<(), OutOfMemory>
        requires part { 0 < self.old.knows.parts }
        requires ready { All (λ task. T.ready task.turn) self.old.knows.put }
        ensures deque { self.new.deque ≡ self.old.deque }
        ensures does { OnOk result (Does T.turned self.old.knows self.new.knows done.old.items done.new.items) }
    {
        for _ in 0..MOST_ASKS {
            match self.stealer.steal_as::<Steals>(&mut self.pass) {
                Steal::Success(task) => done.push(task.run())?,
                Steal::Retry => {}
                Steal::Empty => return Ok(()),
            }
        }
        Ok(())
    }
}
