//! The table of many replications.
ghost use Rattle.std.specs.Prelude.{◌≡◌, ◌≤◌, ◌<◌, ◌^◌, ◌++◌, ℕ, List, length, IfOk, OnOk, IsErrOf};
ghost use Rattle.sim_io.specs.Taken.{Keeps};
ghost use Rattle.steal_pool.specs.declared.worker.TheConstants.{MOST_WORKERS};
ghost use Rattle.sim_spec.specs.declared.stop.Stop.{Stop};
ghost use Rattle.sim_text.specs.declared.unfinished.Unfinished.TheVariants.{OutOfMemory as NoMemory};
ghost use Rattle.sim_text.specs.Written.{TellsFaults, WritesText};
ghost use Rattle.replications.specs.Families.{study_of};
ghost use Rattle.replications.specs.Studies.{StudyOf, AreDone, rows_between, stops_between, table_text, gravest};

use crate::batch::Batch;
use crate::gravest::graver;
use crate::job::Job;
use crate::run_rows::Rows;
use crate::seeds::Seeds;
use crate::study::Study;
use model_core::model::Model as SimulationModel;
use sim_io::{Sink, write_all};
use sim_spec::Stop;
use sim_text::Unfinished;
use std::alloc::Global;
use std::thread::Threads;

/// How many bytes the texts of a batch have at most, where it has several replications: 64 MiB.
const BATCH_BYTES: u64 = 67_108_864;

/// How many replications of a batch each worker has on average, so that starting the workers costs little beside them, and
/// that few of them wait at its end.
const EACH: u64 = 256;

/// How many replications a batch has, if the rows of one have so many bytes at most.
fn batch_size(row_bytes: u64, workers: u32) -> u64
    requires { workers ≤ MOST_WORKERS }
    ensures some { 1 ≤ result }
    ensures few { result ≤ 16384 }
{
    let fits = BATCH_BYTES / row_bytes.max(1);
    fits.min(EACH * u64::from(workers)).max(1)
}

/// So many replications of a study, shared out among so many workers.
#[derive(Drop)]
struct Table<'a, R, S> {
    rt: &'a R,
    alloc: Global,
    study: &'a Study<S>,
    count: u64,
    workers: u32,
    ghost seed: { study.now.first_seed < 2 ^ 63 },
    ghost few: { count < 2 ^ 32 },
    ghost some_workers: { 1 ≤ workers },
    ghost few_workers: { workers ≤ MOST_WORKERS },
}

/// Writes the rows of a batch in order, until there was no memory for a replication.
fn write_rows<K: Sink>(jobs: &[Job], worst: &mut Stop, out: &mut K) -> Result<(), Unfinished>
    ensures text { (s : StudyOf) (number : ℕ) → AreDone s number jobs.now
        → WritesText K.Sink out.old out.new result (rows_between s number (length jobs.now)) }
    ensures stops { (s : StudyOf) (number : ℕ) (before : List Stop) → AreDone s number jobs.now → worst.old ≡ gravest before
        → OnOk result (worst.new ≡ gravest (before ++ stops_between s number (length jobs.now))) }
    ensures faults { TellsFaults K.Sink out.old out.new result }
{
    for job in jobs {
        let Some(stop) = job.stop else {
            return Err(Unfinished::OutOfMemory);
        };
        write_all(out, job.rows.as_slice())?;
        *worst = graver(*worst, stop);
    }
    Ok(())
}

/// Writes the rows of all replications, a batch at a time.
fn write_batches<R: Threads + Sync, M: SimulationModel, W: Rows<M>, S: Seeds<M, W>, K: Sink>(
    table: &Table<R, S>,
    out: &mut K,
) -> Result<Stop, Unfinished>
    ensures text { WritesText K.Sink out.old out.new result (rows_between (study_of S.seeded S.rows table.now.study.now) 0 table.now.count) }
    ensures faults { TellsFaults K.Sink out.old out.new result }
    ensures stops { IfOk result (λ worst. worst ≡ gravest (stops_between (study_of S.seeded S.rows table.now.study.now) 0 table.now.count)) }
{
    let size = batch_size(table.study.row_bytes, table.workers);
    let mut worst = Stop::End;
    let mut done = 0u64;
    while done < table.count {
        let end = table.count.min(done + size);
        let batch = Batch { begin: done, end };
        let jobs = batch.run::<R, M, W, S>(table.rt, table.alloc, table.study, table.workers)?;
        write_rows(jobs.as_slice(), &mut worst, out)?;
        done = end;
    }
    Ok(worst)
}

/// Writes the head line, and then all rows.
#[tactic(auto, unfolding(crate::specs::Studies::table_text))]
fn write_lines<R: Threads + Sync, M: SimulationModel, W: Rows<M>, S: Seeds<M, W>, K: Sink>(
    table: &Table<R, S>,
    out: &mut K,
) -> Result<Stop, Unfinished>
    ensures text { WritesText K.Sink out.old out.new result (table_text (study_of S.seeded S.rows table.now.study.now) table.now.count) }
    ensures faults { TellsFaults K.Sink out.old out.new result }
    ensures stops { IfOk result (λ worst. worst ≡ gravest (stops_between (study_of S.seeded S.rows table.now.study.now) 0 table.now.count)) }
{
    write_all(out, table.study.head.as_bytes())?;
    let worst = write_batches::<R, M, W, S, K>(table, out)?;
    Ok(worst)
}

/// Runs a model under so many seeds, shared out among so many workers, and writes the table: the head line, and the rows of
/// each replication in the order of the seeds. It is the same for any number of workers and any schedule of threads. Memory
/// is that of the runs under way and of the rows of a batch, and doesn't grow with the number of replications. The result is
/// the gravest of the stops of the runs. There are less than 2^32 replications, and 1 to 64 workers. The error is that the
/// sink failed or that memory ran out: then a prefix of the table was written.
pub fn write_table<R: Threads + Sync, M: SimulationModel, W: Rows<M>, S: Seeds<M, W>, K: Sink>(
    rt: &R,
    alloc: Global,
    study: &Study<S>,
    count: u64,
    workers: u32,
    out: &mut K,
) -> Result<Stop, Unfinished>
    requires first_seed { study.now.first_seed < 2 ^ 63 }
    requires count { count < 2 ^ 32 }
    requires workers { (1 ≤ workers) × (workers ≤ MOST_WORKERS) }
    ensures text { WritesText K.Sink out.old out.new result (table_text (study_of S.seeded S.rows study.now) count) }
    ensures faults { TellsFaults K.Sink out.old out.new result }
    ensures handed { OnOk result (Keeps (K.told out.new) (K.handed out.new)) }
    ensures handed_so_far { IsErrOf result NoMemory → Keeps (K.told out.new) (K.handed out.new) }
    ensures stops { IfOk result (λ worst. worst ≡ gravest (stops_between (study_of S.seeded S.rows study.now) 0 count)) }
{
    let table = Table {
        rt,
        alloc,
        study,
        count,
        workers,
    };
    let outcome = write_lines::<R, M, W, S, K>(&table, out);
    out.flush()?;
    outcome
}
