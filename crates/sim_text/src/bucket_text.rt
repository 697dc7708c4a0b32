//! What a bucket tells.
ghost use Rattle.std.specs.Prelude.{◌≡◌, ◌++◌, OnOk, ◌<◌};
ghost use Rattle.sim_io.specs.Texts.{record_lines};
ghost use Rattle.sim_io.specs.CycleTexts.{told_cycle};
ghost use Rattle.sim_text.specs.Rest.{AllAtObjects};
ghost use Rattle.sim_text.specs.WholeTexts.{is_whole};

use model_core::model::Model;
use model_core::{OutOfMemory, RecordBuffer};
use sim_io::{LineWriter, put_cycle};
use sim_spec::Bucket;
use std::alloc::Global;

/// Appends the lines of records.
pub fn put_records<M: Model>(
    lines: &mut LineWriter,
    alloc: Global,
    model: &M,
    records: &RecordBuffer,
    into: &mut Vec<u8>,
) -> Result<(), OutOfMemory>
    requires { AllAtObjects (M.meaning model.now) records.now.items }
    ensures { OnOk result (into.new.items ≡ into.old.items ++ record_lines (M.meaning model.now) records.now.items) }
{
    for i in 0..records.len() {
        let (key, parts) = records.at(i);
        lines.put_done(alloc, model, key, parts, into)?;
    }
    Ok(())
}

/// Whether a bucket met neither a fault nor the limit.
pub fn is_whole(bucket: &Bucket) -> bool
    ensures { result ≡ is_whole bucket.now }
{
    bucket.fault.is_none() && !bucket.limited
}

/// Appends the line of a cycle where cycles are told and it is whole.
#[tactic(auto, unfolding(sim_io::specs::CycleTexts::told_cycle))]
pub fn put_told_cycle(
    cycles: bool,
    number: u64,
    bucket: &Bucket,
    into: &mut Vec<u8>,
) -> Result<(), OutOfMemory>
    ensures { OnOk result (into.new.items ≡ into.old.items ++ told_cycle cycles number bucket.now bucket.now.fault bucket.now.limited) }
{
    if cycles && is_whole(bucket) {
        put_cycle(number, bucket, into)?;
    }
    Ok(())
}
