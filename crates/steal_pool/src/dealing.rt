//! Which task begins in which deque.
ghost use Rattle.std.specs.Prelude.{◌≡◌, ◌<◌, [], All, length, IfOk};
ghost use Rattle.steal_pool.specs.Tallies.{tally, WHOLE};
ghost use Rattle.steal_pool.specs.Ends.{IsFresh};
ghost use Rattle.steal_pool.specs.Turns.{IsOf};
ghost use Rattle.steal_pool.specs.Workers.{AreDealt, AreInRound};

use crate::deque::Deque;
use crate::task::Task;
use crate::turn::Turn;
use delta_exchange::OutOfMemory;
use std::alloc::Global;

/// So many empty deques, each with room for so many tasks.
fn empty_deques<T: Turn>(
    alloc: Global,
    count: usize,
    room: usize,
) -> Result<Vec<Deque<T>>, OutOfMemory>
    ensures many { IfOk result (λ deques. length deques.items ≡ count) }
    ensures empty { IfOk result (λ deques. All (λ deque. deque.knows ≡ tally WHOLE [] []) deques.items) }
{
    let mut deques = Vec::with_capacity(alloc, count)?;
    for _ in 0..count {
        deques.push_reserved(Deque::new(alloc, room)?);
    }
    Ok(deques)
}

/// Deals the turns out, each once: turn after turn, to one deque after another in a round.
pub fn deal<T: Turn>(
    alloc: Global,
    turns: Vec<T>,
    workers: usize,
) -> Result<Vec<Deque<T>>, OutOfMemory>
    requires { 0 < workers }
    ensures many { IfOk result (λ deques. length deques.items ≡ workers) }
    ensures fresh { IfOk result (λ deques. All (IsFresh WHOLE) deques.items) }
    ensures of { IfOk result (λ deques. All (λ deque. All (IsOf turns.items) deque.knows.put) deques.items) }
    ensures once { IfOk result (λ deques. AreDealt (length turns.items) deques.items) }
    ensures round { IfOk result (λ deques. AreInRound workers deques.items) }
{
    let room = turns.len() / workers + 1;
    let mut deques = empty_deques(alloc, workers, room)?;
    for (number, turn) in turns.into_iter().enumerate() {
        deques[number % workers].put(Task { number, turn })?;
    }
    Ok(deques)
}
