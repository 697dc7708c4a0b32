//! Turns that are done, in the order in which they were given.
ghost use Rattle.std.specs.Prelude.{◌≡◌, ◌<◌, ℕ, List, All, IsNone, length, map, sum_by, IfOk, Some};
ghost use Rattle.std.specs.List.{AllZip};
ghost use Rattle.steal_pool.specs.Turns.{IsDoneOf, IsFilled, AreRight, times};
ghost use Rattle.steal_pool.specs.Workers.{done_by};

use crate::task::Task;
use crate::turn::Turn;
use crate::worker::Worker;
use delta_exchange::OutOfMemory;
use std::alloc::Global;

/// So many empty places.
fn empty_places<T: Turn>(alloc: Global, count: usize) -> Result<Vec<Option<T>>, OutOfMemory>
    ensures many { IfOk result (λ places. length places.items ≡ count) }
    ensures empty { IfOk result (λ places. All (λ place. IsNone place) places.items) }
{
    let mut places = Vec::with_capacity(alloc, count)?;
    for _ in 0..count {
        places.push_reserved(None);
    }
    Ok(places)
}

/// Puts each turn at the place of its number.
fn fill<T: Turn>(places: &mut Vec<Option<T>>, tasks: Vec<Task<T>>)
    requires { All (λ task. task.number < length places.old.items) tasks.items }
    ensures many { length places.new.items ≡ length places.old.items }
    ensures stay { (number : ℕ) → IsFilled places.old.items number → IsFilled places.new.items number }
    ensures filled { (number : ℕ) → 0 < times number tasks.items → IsFilled places.new.items number }
    ensures right { (turns : List T) → AreRight T.turned turns places.old.items → All (IsDoneOf T.turned turns) tasks.items
        → AreRight T.turned turns places.new.items }
{
    for task in tasks {
        let Task { number, turn } = task;
        places[number] = Some(turn);
    }
}

/// What is at the places, each of which is filled.
fn filled<T: Turn>(alloc: Global, places: Vec<Option<T>>) -> Result<Vec<T>, OutOfMemory>
    requires { (number : ℕ) → number < length places.items → IsFilled places.items number }
    ensures { IfOk result (λ turns. map Some turns.items ≡ places.items) }
{
    let mut turns = Vec::with_capacity(alloc, places.len())?;
    for place in places {
        let Some(turn) = place else { unreachable!() };
        turns.push_reserved(turn);
    }
    Ok(turns)
}

/// The turns that workers have done, in the order of their numbers.
pub fn in_order<T: Turn>(
    alloc: Global,
    workers: Vec<Worker<T>>,
    count: usize,
) -> Result<Vec<T>, OutOfMemory>
    requires within { All (λ worker. All (λ task. task.number < count) worker.done.items) workers.items }
    requires all { (number : ℕ) → number < count → 0 < sum_by (done_by number) workers.items }
    ensures { (turns : List T) → length turns ≡ count → All (λ worker. All (IsDoneOf T.turned turns) worker.done.items) workers.items
        → IfOk result (λ done. AllZip T.turned turns done.items) }
{
    let mut places = empty_places(alloc, count)?;
    for worker in workers {
        fill(&mut places, worker.done);
    }
    filled(alloc, places)
}
