//! The lines of a simulation's text.
ghost use Rattle.std.specs.Prelude.{◌≡◌, ◌<◌, ◌++◌, OnOk, OnErr, take};
ghost use Rattle.std.specs.Io.{StartsWith};
ghost use Rattle.sim_io.specs.Texts.{end_line, fault_line, limit_line, stop_line, IsAtObject};
ghost use Rattle.sim_io.specs.CycleTexts.{IsWhole, cycle_line, demo_line};

mod head;
mod line_writer;
mod tail;
mod text_parts;

use crate::lines::text_parts::{put_fault, put_place};
use event_key::{Key, step_of, time_of};
pub use line_writer::LineWriter;
use model_core::OutOfMemory;
use model_core::model::Model;
use sim_spec::{Bucket, Stop, Terms};
use std::alloc::Global;
pub use text_parts::{put_number, put_stamp};

/// Takes back what a refused call has appended to so many bytes.
pub fn cut_back(
    outcome: Result<(), OutOfMemory>,
    before: usize,
    into: &mut Vec<u8>,
) -> Result<(), OutOfMemory>
    ensures outcome { result ≡ outcome }
    ensures ok { OnOk outcome (into.new.items ≡ into.old.items) }
    ensures err { OnErr outcome (into.new.items ≡ take before into.old.items) }
{
    if outcome.is_err() {
        into.truncate(before);
    }
    outcome
}

#[tactic(auto, unfolding(crate::specs::CycleTexts::cycle_line))]
fn put_summary(number: u64, bucket: &Bucket, into: &mut Vec<u8>) -> Result<(), OutOfMemory>
    ensures ok { OnOk result (into.new.items ≡ into.old.items ++ cycle_line number bucket.now) }
    ensures prefix { StartsWith into.new.items into.old.items }
{
    into.extend_from_slice(b"cycle ")?;
    put_number(number, into)?;
    into.extend_from_slice(b" horizon ")?;
    put_stamp(bucket.horizon, into)?;
    into.extend_from_slice(b" events ")?;
    put_number(bucket.done.as_buffer().len() as u64, into)?;
    into.push(b'\n')?;
    Ok(())
}

/// Appends the line of a cycle with this number, whose bucket met neither a fault nor the limit. A refusal leaves what
/// was there.
pub fn put_cycle(number: u64, bucket: &Bucket, into: &mut Vec<u8>) -> Result<(), OutOfMemory>
    requires { IsWhole bucket.now }
    ensures ok { OnOk result (into.new.items ≡ into.old.items ++ cycle_line number bucket.now) }
    ensures err { OnErr result (into.new.items ≡ into.old.items) }
{
    let before = into.len();
    let outcome = put_summary(number, bucket, into);
    cut_back(outcome, before, into)
}

/// Appends the line of a demo with this number, which had so many events in so many whole cycles, the last one at this
/// stamp. A refusal leaves what was there.
#[tactic(auto, unfolding(crate::specs::CycleTexts::demo_line, crate::specs::Texts::stamp_text))]
pub fn put_demo(
    alloc: Global,
    n: u32,
    count: u64,
    cycles: u64,
    last: u64,
    into: &mut Vec<u8>,
) -> Result<(), OutOfMemory>
    ensures ok { OnOk result (into.new.items ≡ into.old.items ++ demo_line n count cycles last) }
    ensures err { OnErr result (into.new.items ≡ into.old.items) }
{
    let time = time_of(last);
    let step = step_of(last);
    let line = format!(in alloc; "demo {n} events {count} cycles {cycles} last {time}.{step}\n")?;
    into.extend_from_slice(line.as_bytes())?;
    Ok(())
}

/// Appends the line of a simulation that ran to its end.
fn put_end(alloc: Global, end: u64, count: u64, into: &mut Vec<u8>) -> Result<(), OutOfMemory>
    ensures ok { OnOk result (into.new.items ≡ into.old.items ++ end_line end count) }
    ensures prefix { StartsWith into.new.items into.old.items }
{
    let line = format!(in alloc; "end {end} events {count}\n")?;
    into.extend_from_slice(line.as_bytes())?;
    Ok(())
}

/// Appends the line of one that met its limit of events.
fn put_limit(alloc: Global, count: u64, into: &mut Vec<u8>) -> Result<(), OutOfMemory>
    ensures ok { OnOk result (into.new.items ≡ into.old.items ++ limit_line count) }
    ensures prefix { StartsWith into.new.items into.old.items }
{
    let line = format!(in alloc; "limit {count}\n")?;
    into.extend_from_slice(line.as_bytes())?;
    Ok(())
}

/// Appends the line of a fault.
fn put_failure<M: Model>(
    alloc: Global,
    model: &M,
    key: &Key,
    code: u32,
    into: &mut Vec<u8>,
) -> Result<(), OutOfMemory>
    requires { key.now.dest < (M.meaning model.now).objects }
    ensures ok { OnOk result (into.new.items ≡ into.old.items ++ fault_line (M.meaning model.now) key.now code) }
    ensures prefix { StartsWith into.new.items into.old.items }
{
    into.extend_from_slice(b"fault ")?;
    put_place(alloc, model, key, into)?;
    into.push(b' ')?;
    put_fault(model, code, into)?;
    into.push(b'\n')?;
    Ok(())
}

#[tactic(auto, unfolding(crate::specs::Texts::stop_line))]
fn put_reason<M: Model>(
    alloc: Global,
    model: &M,
    terms: &Terms,
    count: u64,
    stop: &Stop,
    into: &mut Vec<u8>,
) -> Result<(), OutOfMemory>
    requires { IsAtObject (M.meaning model.now) stop.now }
    ensures ok { OnOk result (into.new.items ≡ into.old.items ++ stop_line (M.meaning model.now) terms.now count stop.now) }
    ensures prefix { StartsWith into.new.items into.old.items }
{
    match *stop {
        Stop::End => put_end(alloc, terms.end, count, into),
        Stop::Limit => put_limit(alloc, count, into),
        Stop::Fault { key, code } => put_failure(alloc, model, &key, code, into),
    }
}

/// Appends the line that says why the simulation stopped after so many events. A refusal leaves what was there.
pub fn put_stop<M: Model>(
    alloc: Global,
    model: &M,
    terms: &Terms,
    count: u64,
    stop: &Stop,
    into: &mut Vec<u8>,
) -> Result<(), OutOfMemory>
    requires { IsAtObject (M.meaning model.now) stop.now }
    ensures ok { OnOk result (into.new.items ≡ into.old.items ++ stop_line (M.meaning model.now) terms.now count stop.now) }
    ensures err { OnErr result (into.new.items ≡ into.old.items) }
{
    let before = into.len();
    let outcome = put_reason(alloc, model, terms, count, stop, into);
    cut_back(outcome, before, into)
}
