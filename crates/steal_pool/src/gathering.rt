//! What is done once the workers have joined: what is left in their deques.
ghost use Rattle.std.specs.Prelude.{◌≡◌, ◌-◌, ◌<◌, ◌≤◌, ℕ, All, length, map, sum_by, OnOk};
ghost use Rattle.std.specs.List.{AllZip};
ghost use Rattle.steal_pool.specs.declared.worker.TheConstants.{MOST_WORKERS};
ghost use Rattle.steal_pool.specs.Tallies.{WHOLE};
ghost use Rattle.steal_pool.specs.Workers.{AreReady, ArePasses, HasEnded, HasGotBack, HaveEnded, HaveLearnt, HaveWorked};
ghost use Rattle.steal_pool.specs.Workers.{done_of, own_mark, own_taken, taken_by};

use crate::deque::Victim;
use crate::turn::Turn;
use crate::worker::Worker;
use delta_exchange::OutOfMemory;
use std::alloc::Global;
use std::mem;

/// Gives each deque back the pass that one worker has to it.
fn give_back<T: Turn>(workers: &mut Vec<Worker<T>>, victims: Vec<Victim<T>>)
    requires to { ArePasses (map own_mark workers.old.items) victims.items }
    requires part { All (λ worker. 0 < worker.deque.knows.parts) workers.old.items }
    ensures each { AllZip HasGotBack workers.old.items workers.new.items }
    ensures counted { HaveLearnt victims.items workers.old.items workers.new.items }
{
    for (place, victim) in victims.into_iter().enumerate() {
        workers[place].deque.take_back(victim);
    }
}

/// Gives each deque back the passes of all workers, so that its owner knows of all that was taken.
fn give_all_back<T: Turn>(alloc: Global, workers: &mut Vec<Worker<T>>)
    requires few { length workers.old.items ≤ MOST_WORKERS }
    requires passes { All (λ worker. ArePasses (map own_mark workers.old.items) worker.victims.items) workers.old.items }
    requires parts { All (λ worker. worker.deque.knows.parts ≡ WHOLE - length workers.old.items) workers.old.items }
    ensures marks { map own_mark workers.new.items ≡ map own_mark workers.old.items }
    ensures done { map done_of workers.new.items ≡ map done_of workers.old.items }
    ensures whole { All (λ worker. worker.deque.knows.parts ≡ WHOLE) workers.new.items }
    ensures counted { (number : ℕ) → sum_by (own_taken number) workers.new.items ≡ sum_by (taken_by number) workers.old.items }
{
    for place in 0..workers.len() {
        let victims = mem::replace(&mut workers[place].victims, Vec::new(alloc));
        give_back(workers, victims);
    }
}

/// Does what is left in the deques, on the calling thread.
fn do_rest<T: Turn>(workers: &mut [Worker<T>]) -> Result<(), OutOfMemory>
    requires whole { All (λ worker. worker.deque.knows.parts ≡ WHOLE) workers.old }
    requires ready { AreReady T.ready (map own_mark workers.old) }
    ensures { OnOk result (AllZip (HasEnded T.turned) workers.old workers.new) }
{
    for worker in workers.iter_mut() {
        worker.deque.empty(&mut worker.done)?;
    }
    Ok(())
}

/// Does what the workers have left.
pub fn gather<T: Turn>(alloc: Global, workers: &mut Vec<Worker<T>>) -> Result<(), OutOfMemory>
    requires few { length workers.old.items ≤ MOST_WORKERS }
    requires worked { HaveWorked T.turned (map own_mark workers.old.items) workers.old.items }
    requires ready { AreReady T.ready (map own_mark workers.old.items) }
    ensures { OnOk result (HaveEnded T.turned (map own_mark workers.old.items) workers.new.items) }
{
    give_all_back(alloc, workers);
    do_rest(workers.as_mut_slice())
}
