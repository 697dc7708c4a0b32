//! The run of turns by workers.
ghost use Rattle.std.specs.Prelude.{◌≤◌, All, IfOk};
ghost use Rattle.std.specs.List.{AllZip};
ghost use Rattle.steal_pool.specs.declared.worker.TheConstants.{MOST_WORKERS};

use crate::dealing::deal;
use crate::forking::work_together;
use crate::gathering::gather;
use crate::hiring::hire;
use crate::ordering::in_order;
use crate::turn::Turn;
use delta_exchange::OutOfMemory;
use std::alloc::Global;
use std::thread::Threads;

/// Does each turn once, by so many workers, from 1 to `MOST_WORKERS`, each in a thread of its own, the calling one among them. Answers
/// the turns in the order in which they were given. Which worker does which turn is left open.
///
/// Turn after turn begins in the deque of one worker after another, in a round. A worker takes its own turns until there are
/// none, and then visits each other deque once and steals there. Where memory runs out the turns are gone, and each had one
/// turn or none.
pub fn run_turns<R: Threads + Sync, T: Turn>(
    rt: &R,
    alloc: Global,
    turns: Vec<T>,
    workers: u32,
) -> Result<Vec<T>, OutOfMemory>
    requires ready { All T.ready turns.items }
    requires workers { (1 ≤ workers) × (workers ≤ MOST_WORKERS) }
    ensures { IfOk result (λ done. AllZip T.turned turns.items done.items) }
{
    let count = turns.len();
    let deques = deal(alloc, turns, workers as usize)?;
    let mut workers = hire(alloc, deques)?;
    work_together(rt, workers.as_mut_slice())?;
    gather(alloc, &mut workers)?;
    in_order(alloc, workers, count)
}
