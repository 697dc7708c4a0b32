//! Whole runs of the program, over sources and sinks in memory.
mod counts;
mod long;
mod longest_state;
mod machines;
mod processes;
mod readers;
mod refusals;
mod saving;
mod streams;
mod texts;
mod threads;
mod totals;
mod writes;

use btb_program::btb;
use model_program::{Gate, Open};
use sim_io::{MemSink, MemSource, Sink, Source};
use std::alloc::AllocGlobal;
use std::process::Abort;
use std::test::Fail;
use std::thread::Threads;
use test_texts::{Ended, sink_of, source_of, words_of};

/// The status of a run of these words over any streams.
fn status_of<R: AllocGlobal + Threads + Sync, S: Source, K: Sink, N: Sink, G: Gate>(
    rt: &R,
    words: &str,
    source: &mut S,
    out: &mut K,
    notes: &mut N,
    gate: &G,
) -> Result<u8, Fail> {
    let words = words_of(rt.alloc(), words)?;
    Ok(btb(rt, &words, source, out, notes, gate))
}

/// How a run of these words ends over these streams.
fn ended_by<R: AllocGlobal + Threads + Sync, G: Gate>(
    rt: &R,
    words: &str,
    mut source: MemSource,
    mut out: MemSink,
    gate: &G,
) -> Result<Ended, Fail> {
    let alloc = rt.alloc();
    let mut notes = sink_of(alloc, &[], &[])?;
    let status = status_of(rt, words, &mut source, &mut out, &mut notes, gate)?;
    Ended::of(alloc, status, &out, &notes)
}

/// How a run of these words ends that reads this input, and of which a gate is told.
fn told_at<R: AllocGlobal + Threads + Sync, G: Gate>(
    rt: &R,
    words: &str,
    input: &str,
    gate: &G,
) -> Result<Ended, Fail> {
    let alloc = rt.alloc();
    let source = source_of(alloc, input.as_bytes(), &[])?;
    ended_by(rt, words, source, sink_of(alloc, &[], &[])?, gate)
}

/// How a run of these words ends that reads this input.
pub(super) fn told_by<R: AllocGlobal + Threads + Sync>(
    rt: &R,
    words: &str,
    input: &str,
) -> Result<Ended, Fail> {
    told_at(rt, words, input, &Open)
}

/// By all of these words a model has this status and this text, of which nothing is noted.
fn assert_by_all<R: Abort + AllocGlobal + Threads + Sync>(
    rt: &R,
    all: &[&str],
    model: &str,
    status: u8,
    text: &str,
) -> Result<(), Fail> {
    for words in all {
        told_by(rt, words, model)?.expect(status, text, "", words)?;
    }
    Ok(())
}
