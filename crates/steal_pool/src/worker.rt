//! One worker: its own deque, and its passes to those of all.
ghost use Rattle.std.specs.Prelude.{◌≡◌, ◌≢◌, ◌⊎◌, ◌+◌, ◌<◌, ◌≤◌, OnOk};
ghost use Rattle.steal_pool.specs.declared.worker.TheConstants.{MOST_WORKERS};
ghost use Rattle.steal_pool.specs.Workers.{AllReady, Can, HasWorked};

use crate::deque::{Deque, Victim};
use crate::task::Task;
use crate::turn::Turn;
use delta_exchange::OutOfMemory;

/// How many workers there are at most.
pub const MOST_WORKERS: usize = 64;

/// A worker: its number, its deque, a pass to the deque of each worker in the order of their numbers, and what it did.
#[derive(Drop)]
pub struct Worker<T> {
    pub number: usize,
    pub deque: Deque<T>,
    /// The pass to its own deque is never used: as all are alike, each deque has given away as many.
    pub victims: Vec<Victim<T>>,
    pub done: Vec<Task<T>>,
    pub answer: Result<(), OutOfMemory>,
}

/// The worker that so many steps after this one comes round, another one.
fn other_in_round(number: usize, step: usize, count: usize) -> usize
    requires number { number < count }
    requires step { (0 < step) × (step < count) }
    requires count { count ≤ MOST_WORKERS }
    ensures round { (result ≡ number + step) ⊎ (result + count ≡ number + step) }
    ensures within { result < count }
    ensures other { result ≢ number }
{
    if number + step < count {
        number + step
    } else {
        number + step - count
    }
}

impl<T: Turn> Worker<T> {
    /// Does its own turns until there are none, and then visits each other deque once, in a round.
    pub fn work(&mut self) -> Result<(), OutOfMemory>
        requires can { Can self.old }
        requires ready { AllReady T.ready self.old }
        ensures { OnOk result (HasWorked T.turned self.old self.new) }
    {
        self.deque.empty(&mut self.done)?;
        let count = self.victims.len();
        for step in 1..count {
            let other = other_in_round(self.number, step, count);
            self.victims[other].rob(&mut self.done)?;
        }
        Ok(())
    }
}
