//! The rows of a table.
ghost use Rattle.std.specs.Prelude.{◌≡◌, ◌++◌, OnOk, codes};
ghost use Rattle.replications.specs.Rows.{stop_name, seed_text, counts_text, times_text, columns_text, end_text};

use crate::window::Columns;
use itoa::{Buffer, Integer};
use model_core::OutOfMemory;
use sim_spec::Stop;

/// The head line of a table of windows.
pub const WINDOW_HEAD: &str =
    "seed,object,arrivals,served,lost,busy,waiting,age,longest,ticks,events,stop\n";

/// The seed of a replication, and how its run ended.
#[derive(Clone, Copy, Debug, PartialEq, Eq)]
pub struct RunEnd {
    pub seed: u64,
    /// How many events the whole run did, those before the window too.
    pub events: u64,
    /// Why it ended.
    pub stop: Stop,
}

/// Why a run stopped, as a row says it.
fn stop_name(stop: &Stop) -> &'static str
    ensures { result.now ≡ stop_name stop.now }
{
    match stop {
        Stop::End => "end",
        Stop::Limit => "limit",
        Stop::Fault { .. } => "fault",
    }
}

/// Appends a number in decimal and a comma. The one error here is that memory ran out: then each call may have appended some of
/// its text.
pub fn put_field<I: Integer>(number: I, into: &mut Vec<u8>) -> Result<(), OutOfMemory>
    ensures { OnOk result (into.new.items ≡ into.old.items ++ (I.text number ++ codes ",")) }
{
    let mut buffer = Buffer::new();
    into.extend_from_slice(buffer.format(number).as_bytes())?;
    into.push(b',')?;
    Ok(())
}

/// Appends the seed of a row.
#[tactic(auto, unfolding(crate::specs::Rows::seed_text))]
pub fn put_seed(seed: u64, into: &mut Vec<u8>) -> Result<(), OutOfMemory>
    ensures { OnOk result (into.new.items ≡ into.old.items ++ seed_text seed) }
{
    put_field(seed, into)
}

/// Appends how many jobs came to an object, were served there, and were turned away.
#[tactic(auto, unfolding(crate::specs::Rows::counts_text))]
fn put_counts(sums: &Columns, into: &mut Vec<u8>) -> Result<(), OutOfMemory>
    ensures { OnOk result (into.new.items ≡ into.old.items ++ counts_text sums.now) }
{
    into.push(b',')?;
    put_field(sums.arrivals, into)?;
    put_field(sums.served, into)?;
    put_field(sums.lost, into)
}

/// Appends the sums of times of an object, and its longest line.
#[tactic(auto, unfolding(crate::specs::Rows::times_text))]
fn put_times(sums: &Columns, into: &mut Vec<u8>) -> Result<(), OutOfMemory>
    ensures { OnOk result (into.new.items ≡ into.old.items ++ times_text sums.now) }
{
    put_field(sums.busy, into)?;
    put_field(sums.waiting, into)?;
    put_field(sums.age, into)?;
    put_field(sums.longest, into)
}

/// Appends the sums of a row.
pub fn put_columns(sums: &Columns, into: &mut Vec<u8>) -> Result<(), OutOfMemory>
    ensures { OnOk result (into.new.items ≡ into.old.items ++ columns_text sums.now) }
{
    put_counts(sums, into)?;
    put_times(sums, into)
}

/// Appends the end of a row: how many ticks its window has, and how its run ended.
#[tactic(auto, unfolding(crate::specs::Rows::end_text))]
pub fn put_end(ticks: u64, end: &RunEnd, into: &mut Vec<u8>) -> Result<(), OutOfMemory>
    ensures { OnOk result (into.new.items ≡ into.old.items ++ end_text ticks end.now) }
{
    put_field(ticks, into)?;
    put_field(end.events, into)?;
    into.extend_from_slice(stop_name(&end.stop).as_bytes())?;
    into.push(b'\n')?;
    Ok(())
}
