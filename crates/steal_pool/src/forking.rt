//! The fork in which workers work.
ghost use Rattle.std.specs.Prelude.{◌≤◌, All, IsOk, OnOk, length, map};
ghost use Rattle.std.specs.List.{AllZip};
ghost use Rattle.std.specs.Thread.{IsSend};
ghost use Rattle.steal_pool.specs.declared.worker.TheConstants.{MOST_WORKERS};
ghost use Rattle.steal_pool.specs.Workers.{AllReady, AreHired, AreReady, Can, CanAll, HasDone, HaveWorked, own_mark};

use crate::turn::Turn;
use crate::worker::Worker;
use delta_exchange::OutOfMemory;
use std::thread::{Threads, for_each_mut};

/// Lets one worker do turns until there are none left, and keeps its answer.
fn do_turns<T: Turn>(worker: &mut Worker<T>)
    requires can { Can worker.old }
    requires ready { AllReady T.ready worker.old }
    ensures { HasDone T.turned worker.old worker.new }
{
    worker.answer = worker.work();
}

/// Lets each worker work in a thread of its own, the calling one among them.
fn work_all<R: Threads + Sync, T: Turn>(rt: &R, all: &mut [Worker<T>])
    requires { CanAll T.ready all.old }
    ensures { AllZip (HasDone T.turned) all.old all.new }
{
    let work = |_place: usize, worker: &mut Worker<T>|
        requires { IsSend T.row × Can worker.old × AllReady T.ready worker.old }
        ensures { HasDone T.turned worker.old worker.new }
    { do_turns(worker) };
    let threads = all.len().max(1);
    for_each_mut(rt, all, threads, &work);
}

/// Answers the refusal of a worker, if one was refused.
fn answer_of<T: Turn>(workers: &[Worker<T>]) -> Result<(), OutOfMemory>
    ensures { OnOk result (All (λ worker. IsOk worker.answer) workers.now) }
{
    for worker in workers {
        worker.answer?;
    }
    Ok(())
}

/// Lets all workers work. Answers an error where memory ran out for one of them.
pub fn work_together<R: Threads + Sync, T: Turn>(
    rt: &R,
    workers: &mut [Worker<T>],
) -> Result<(), OutOfMemory>
    requires hired { AreHired (map own_mark workers.old) workers.old }
    requires few { length workers.old ≤ MOST_WORKERS }
    requires ready { AreReady T.ready (map own_mark workers.old) }
    ensures { OnOk result (HaveWorked T.turned (map own_mark workers.old) workers.new) }
{
    work_all(rt, workers);
    answer_of(workers)
}
