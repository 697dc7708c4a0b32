//! The same work on each of many values, as turns.
ghost use Rattle.std.specs.Prelude.{◌≡◌, ◌≤◌, All, IfOk, map};
ghost use Rattle.std.specs.List.{AllZip};
ghost use Rattle.steal_pool.specs.declared.worker.TheConstants.{MOST_WORKERS};
ghost use Rattle.steal_pool.specs.Works.{Accepts, AreWith, Changes, item_in};

use crate::running::run_turns;
use crate::turn::Turn;
use delta_exchange::OutOfMemory;
use std::alloc::Global;
use std::thread::Threads;

/// A value, and the work that its turn does on it.
#[derive(Drop)]
struct Job<'a, T, F> {
    item: T,
    work: &'a F,
}

impl<'a, T: Send + Drop, F: Fn(&mut T) + Sync> Turn for Job<'a, T, F> {
    ghost use Rattle.steal_pool.specs.Works.{Accepts, Changes};

    ghost ready = { λ job. Accepts F.Fn job.work.now job.item };

    ghost turned = { λ old new. Changes F.Fn old.work.now old.item new.item };

    fn turn(&mut self) {
        (self.work)(&mut self.item);
    }
}

/// A job for each value.
fn jobs_of<'a, T: Drop, F: Fn(&mut T) + Sync>(
    alloc: Global,
    items: Vec<T>,
    work: &'a F,
) -> Result<Vec<Job<'a, T, F>>, OutOfMemory>
    ensures items { IfOk result (λ jobs. map item_in jobs.items ≡ items.items) }
    ensures work { IfOk result (λ jobs. AreWith work.now jobs.items) }
{
    let mut jobs = Vec::with_capacity(alloc, items.len())?;
    for item in items {
        jobs.push_reserved(Job { item, work });
    }
    Ok(jobs)
}

/// The values of jobs.
fn items_of<'a, T: Drop, F: Fn(&mut T) + Sync>(
    alloc: Global,
    jobs: Vec<Job<'a, T, F>>,
) -> Result<Vec<T>, OutOfMemory>
    ensures { IfOk result (λ items. items.items ≡ map item_in jobs.entry.items) }
{
    let mut items = Vec::with_capacity(alloc, jobs.len())?;
    for job in jobs {
        let Job { item, work: _ } = job;
        items.push_reserved(item);
    }
    Ok(items)
}

/// Does the work on each value once, by so many workers, from 1 to `MOST_WORKERS`, as `run_turns` does turns. Answers the values in the
/// order in which they were given. Where memory runs out they are gone.
pub fn run_each<R: Threads + Sync, T: Send + Drop, F: Fn(&mut T) + Sync>(
    rt: &R,
    alloc: Global,
    items: Vec<T>,
    workers: u32,
    work: &F,
) -> Result<Vec<T>, OutOfMemory>
    requires accepts { All (Accepts F.Fn work.now) items.items }
    requires workers { (1 ≤ workers) × (workers ≤ MOST_WORKERS) }
    ensures { IfOk result (λ done. AllZip (Changes F.Fn work.now) items.items done.items) }
{
    let jobs = jobs_of(alloc, items, work)?;
    let done = run_turns(rt, alloc, jobs, workers)?;
    items_of(alloc, done)
}
