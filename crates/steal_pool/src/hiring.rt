//! A worker for each deque, with a pass to each deque.
ghost use Rattle.std.specs.Prelude.{◌≡◌, ◌+◌, ◌-◌, ◌<◌, ◌≤◌, ℕ, All, length, map, IfOk, OnOk};
ghost use Rattle.steal_pool.specs.declared.worker.TheConstants.{MOST_WORKERS};
ghost use Rattle.steal_pool.specs.Tallies.{WHOLE};
ghost use Rattle.steal_pool.specs.Ends.{IsFresh, mark};
ghost use Rattle.steal_pool.specs.Workers.{AreHired, AreNew};

use crate::deque::{Deque, Victim};
use crate::turn::Turn;
use crate::worker::Worker;
use delta_exchange::OutOfMemory;
use std::alloc::Global;

/// A pass to each deque.
fn passes<T: Turn>(alloc: Global, deques: &mut [Deque<T>]) -> Result<Vec<Victim<T>>, OutOfMemory>
    requires { All (λ deque. 1 < deque.knows.parts) deques.old }
    ensures marks { map mark deques.new ≡ map mark deques.old }
    ensures passes { IfOk result (λ victims. AreNew (map mark deques.old) victims.items) }
    ensures left { OnOk result ((many : ℕ) → All (IsFresh (many + 1)) deques.old → All (IsFresh many) deques.new) }
{
    let mut victims = Vec::with_capacity(alloc, deques.len())?;
    for deque in deques.iter_mut() {
        victims.push_reserved(deque.victim()?);
    }
    Ok(victims)
}

/// A pass to each deque, for as many workers as there are deques.
fn all_passes<T: Turn>(
    alloc: Global,
    deques: &mut [Deque<T>],
) -> Result<Vec<Vec<Victim<T>>>, OutOfMemory>
    requires few { length deques.old ≤ MOST_WORKERS }
    requires fresh { All (IsFresh WHOLE) deques.old }
    ensures marks { map mark deques.new ≡ map mark deques.old }
    ensures many { IfOk result (λ lists. length lists.items ≡ length deques.old) }
    ensures passes { IfOk result (λ lists. All (λ victims. AreNew (map mark deques.old) victims.items) lists.items) }
    ensures left { OnOk result (All (IsFresh (WHOLE - length deques.old)) deques.new) }
{
    let mut lists = Vec::with_capacity(alloc, deques.len())?;
    for _ in 0..deques.len() {
        lists.push_reserved(passes(alloc, deques)?);
    }
    Ok(lists)
}

/// A worker for each deque, with one of the lists of passes.
fn seat<T: Turn>(
    alloc: Global,
    deques: Vec<Deque<T>>,
    lists: Vec<Vec<Victim<T>>>,
) -> Result<Vec<Worker<T>>, OutOfMemory>
    requires many { length lists.items ≡ length deques.items }
    requires fresh { All (IsFresh (WHOLE - length deques.items)) deques.items }
    requires passes { All (λ victims. AreNew (map mark deques.items) victims.items) lists.items }
    ensures { IfOk result (λ workers. AreHired (map mark deques.items) workers.items) }
{
    let mut lists = lists;
    let mut workers = Vec::with_capacity(alloc, deques.len())?;
    for deque in deques {
        let Some(victims) = lists.pop() else {
            unreachable!()
        };
        let number = workers.len();
        workers.push_reserved(Worker {
            number,
            deque,
            victims,
            done: Vec::new(alloc),
            answer: Ok(()),
        });
    }
    Ok(workers)
}

/// A worker for each deque, with a pass to each deque.
pub fn hire<T: Turn>(alloc: Global, deques: Vec<Deque<T>>) -> Result<Vec<Worker<T>>, OutOfMemory>
    requires few { length deques.items ≤ MOST_WORKERS }
    requires fresh { All (IsFresh WHOLE) deques.items }
    ensures { IfOk result (λ workers. AreHired (map mark deques.items) workers.items) }
{
    let mut deques = deques;
    let lists = all_passes(alloc, deques.as_mut_slice())?;
    seat(alloc, deques, lists)
}
