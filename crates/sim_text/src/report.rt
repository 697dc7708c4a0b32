//! What is kept of a simulation for its text.
ghost use Rattle.std.specs.Prelude.{◌≡◌, ◌++◌, ◌∷◌, [], List, IfOk, OnOk};
ghost use Rattle.sim_spec.specs.declared.bucket.Bucket.{Bucket};
ghost use Rattle.sim_spec.specs.Cycles.{records_of_buckets};
ghost use Rattle.sim_text.specs.declared.telling.Telling.{Telling};
ghost use Rattle.run_tally.specs.Tallies.{AreOfRun};
ghost use Rattle.sim_text.specs.Reports.{IsReportOf, CanGoOn, told_at_once, told_in_the_end};

use crate::bucket_text::{put_records, put_told_cycle};
use crate::summary::Summary;
use crate::telling::Telling;
use model_core::OutOfMemory;
use model_core::model::Model;
use run_tally::{Tally, add_all};
use sim_io::{LineWriter, put_demo};
use sim_spec::{Bucket, Stop, Terms};
use std::alloc::Global;

/// What is kept of the buckets of a simulation for its text.
#[derive(Drop)]
pub enum Report<L: Drop> {
    /// Nothing: the lines of a bucket are told at once, with one for its cycle where cycles are told.
    Lines { cycles: bool },
    /// Sums, which are told in the end.
    Sums(L),
    /// A summary, which is told in the end.
    Counts(Summary),
}

impl<L: Drop> Report<L> {
    /// What is kept of no bucket, where this is to be told.
    #[tactic(auto, unfolding(crate::specs::Reports::summary_of, sim_spec::specs::Cycles::records_of_buckets))]
    pub fn new<M: Model>(
        alloc: Global,
        model: &M,
        telling: Telling,
    ) -> Result<Report<L>, OutOfMemory>
    where
        L: Tally<M>,
        ensures { IfOk result (IsReportOf (L.sums_up model.now) telling []) }
    {
        match telling {
            Telling::Lines { cycles } => Ok(Report::Lines { cycles }),
            Telling::Totals => Ok(Report::Sums(L::new(alloc, model)?)),
            Telling::Demo { n } => Ok(Report::Counts(Summary::new(n))),
        }
    }

    /// Appends what is told at once of a bucket with this number, and keeps of it what is told in the end.
    #[tactic(auto, unfolding(sim_io::specs::CycleTexts::bucket_lines))]
    pub fn add<M: Model>(
        &mut self,
        lines: &mut LineWriter,
        alloc: Global,
        model: &M,
        number: u64,
        bucket: &Bucket,
        into: &mut Vec<u8>,
    ) -> Result<(), OutOfMemory>
    where
        L: Tally<M>,
        requires { (telling : Telling) × (bs : List Bucket) × IsReportOf (L.sums_up model.now) telling bs self.old
            × CanGoOn (M.meaning model.now) telling bs bucket.now }
        ensures told { OnOk result ((telling : Telling) (bs : List Bucket) → IsReportOf (L.sums_up model.now) telling bs self.old
            → into.new.items ≡ into.old.items ++ told_at_once (M.meaning model.now) telling number bucket.now) }
        ensures kept { (telling : Telling) (bs : List Bucket) → IsReportOf (L.sums_up model.now) telling bs self.old
            → CanGoOn (M.meaning model.now) telling bs bucket.now
            → IsReportOf (L.sums_up model.now) telling (bs ++ bucket.now ∷ []) self.new }
    {
        match self {
            Report::Lines { cycles } => {
                put_records(lines, alloc, model, bucket.done.as_buffer(), into)?;
                put_told_cycle(*cycles, number, bucket, into)
            }
            Report::Sums(tally) => {
                add_all(tally, model, bucket.done.as_buffer());
                Ok(())
            }
            Report::Counts(summary) => {
                summary.add(bucket);
                Ok(())
            }
        }
    }

    /// Appends what is told in the end, after so many events, of a run that stopped so.
    pub fn put<M: Model>(
        &self,
        alloc: Global,
        model: &M,
        terms: &Terms,
        count: u64,
        stop: &Stop,
        into: &mut Vec<u8>,
    ) -> Result<(), OutOfMemory>
    where
        L: Tally<M>,
        requires { (telling : Telling) × (bs : List Bucket) × IsReportOf (L.sums_up model.now) telling bs self.now
            × (telling ≡ Telling.Totals → AreOfRun (M.meaning model.now) terms.now (records_of_buckets bs) stop.now) }
        ensures { OnOk result ((telling : Telling) (bs : List Bucket) → IsReportOf (L.sums_up model.now) telling bs self.now
            → (telling ≡ Telling.Totals → AreOfRun (M.meaning model.now) terms.now (records_of_buckets bs) stop.now)
            → into.new.items ≡ into.old.items ++ told_in_the_end (L.lines model.now terms.now) telling bs count stop.now) }
    {
        match self {
            Report::Lines { .. } => Ok(()),
            Report::Sums(tally) => tally.put(alloc, model, terms, stop, into),
            Report::Counts(summary) => {
                put_demo(alloc, summary.n, count, summary.cycles, summary.last, into)
            }
        }
    }
}
