//! Batches of replications, shared out among workers.
ghost use Rattle.std.specs.Prelude.{◌≡◌, ◌≤◌, ◌<◌, ◌+◌, ◌-◌, ◌^◌, ◌++◌, IfOk, OnOk, None, length, All};
ghost use Rattle.std.specs.Thread.{IsSend, IsSync};
ghost use Rattle.steal_pool.specs.declared.worker.TheConstants.{MOST_WORKERS};
ghost use Rattle.replications.specs.declared.job.Job.{Job};
ghost use Rattle.replications.specs.Families.{study_of};
ghost use Rattle.replications.specs.Studies.{AreDone, AreToDo, Does, IsDone, rows_under, seed_at, stop_under};

use crate::job::Job;
use crate::replication::replicate_once;
use crate::run_rows::Rows;
use crate::seeds::Seeds;
use crate::study::Study;
use model_core::OutOfMemory;
use model_core::model::Model as SimulationModel;
use sim_spec::Stop;
use std::alloc::Global;
use std::thread::Threads;
use steal_pool::run_each;

/// How many seeds there are: 2^63.
const SEEDS: u64 = 9_223_372_036_854_775_808;

/// The seed of a replication, counted from 0.
fn seed_at(first_seed: u64, number: u64) -> u64
    requires first_seed { first_seed < 2 ^ 63 }
    requires number { number < 2 ^ 63 }
    ensures seed { result ≡ seed_at first_seed number }
    ensures below { result < 2 ^ 63 }
{
    (first_seed + number) % SEEDS
}

/// Runs a model under a seed, and appends its rows.
fn run_seed<M: SimulationModel, W: Rows<M>, S: Seeds<M, W>>(
    alloc: Global,
    study: &Study<S>,
    seed: u64,
    into: &mut Vec<u8>,
) -> Result<Stop, OutOfMemory>
    requires { seed < 2 ^ 63 }
    ensures rows { OnOk result (into.new.items ≡ into.old.items ++ rows_under (study_of S.seeded S.rows study.now) seed) }
    ensures stop { IfOk result (λ stop. stop ≡ stop_under (study_of S.seeded S.rows study.now) seed) }
{
    let model = study.models.with_seed(alloc, seed)?;
    let stop = replicate_once::<M, W>(alloc, model, study.terms, study.first_tick, seed, into)?;
    Ok(stop)
}

/// Does a job.
fn do_job<M: SimulationModel, W: Rows<M>, S: Seeds<M, W>>(
    alloc: Global,
    study: &Study<S>,
    job: &mut Job,
)
    requires seed { job.old.seed < 2 ^ 63 }
    requires stop { job.old.stop ≡ None }
    ensures { Does (study_of S.seeded S.rows study.now) job.old job.new }
{
    if let Ok(stop) = run_seed::<M, W, S>(alloc, study, job.seed, &mut job.rows) {
        job.stop = Some(stop);
    }
}

/// Replications one after another, counted from 0.
#[derive(Clone, Copy, Debug, PartialEq, Eq)]
pub struct Batch {
    /// The first of them.
    pub begin: u64,
    /// The one behind the last of them, not below `begin`.
    pub end: u64,
}

impl Batch {
    /// Its replications as jobs in order, where the first one of all has this seed.
    fn jobs(self, alloc: Global, first_seed: u64) -> Result<Vec<Job>, OutOfMemory>
        requires first_seed { first_seed < 2 ^ 63 }
        requires order { self.begin ≤ self.end }
        requires below { self.end < 2 ^ 63 }
        ensures jobs { IfOk result (λ jobs. AreToDo first_seed self.begin jobs.items) }
        ensures ready { IfOk result (λ jobs. All (λ (job : Job). (job.seed < 2 ^ 63) × (job.stop ≡ None)) jobs.items) }
        ensures many { IfOk result (λ jobs. self.begin + length jobs.items ≡ self.end) }
    {
        let mut jobs = Vec::new(alloc);
        for number in self.begin..self.end {
            jobs.push(Job {
                seed: seed_at(first_seed, number),
                rows: Vec::new(alloc),
                stop: None,
            })?;
        }
        Ok(jobs)
    }

    /// Does its replications, shared out among 1 to 64 workers, and answers them in their order. The one error is that memory
    /// ran out for the jobs or the workers: a replication that memory ran out for has no stop.
    pub fn run<R: Threads + Sync, M: SimulationModel, W: Rows<M>, S: Seeds<M, W>>(
        self,
        rt: &R,
        alloc: Global,
        study: &Study<S>,
        workers: u32,
    ) -> Result<Vec<Job>, OutOfMemory>
        requires first_seed { study.now.first_seed < 2 ^ 63 }
        requires order { self.begin ≤ self.end }
        requires below { self.end < 2 ^ 63 }
        requires workers { (1 ≤ workers) × (workers ≤ MOST_WORKERS) }
        ensures done { IfOk result (λ jobs. AreDone (study_of S.seeded S.rows study.now) self.begin jobs.items) }
        ensures many { IfOk result (λ jobs. self.begin + length jobs.items ≡ self.end) }
    {
        let jobs = self.jobs(alloc, study.first_seed)?;
        let work = |job: &mut Job|
            requires { IsSync S.row × IsSend M.row × IsSync M.row × IsSend W.row × IsSync W.row × (job.old.seed < 2 ^ 63) × (job.old.stop ≡ None) }
            ensures { Does (study_of S.seeded S.rows study.entry.now) job.old job.new }
        { do_job::<M, W, S>(alloc, study, job) };
        let done = run_each(rt, alloc, jobs, workers, &work)?;
        Ok(done)
    }
}
