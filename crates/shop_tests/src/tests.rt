//! Whole runs of the program over sources and sinks in memory, and what is read of a text.
mod models;
mod runs;
mod tables;
mod texts;
mod times;
mod totals;
mod words;

use shop_program::{Open, run_program};
use sim_io::{MemSink, MemSource};
use std::alloc::AllocGlobal;
use std::process::Abort;
use std::test::Fail;
use std::thread::Threads;
use test_texts::{Ended, sink_of, source_of, words_of};

/// A model, the text of its run, and what that shows.
struct Run {
    shows: &'static str,
    model: &'static str,
    text: &'static str,
}

/// How a run of these words ends over these streams.
fn ended_by<R: AllocGlobal + Threads + Sync>(
    rt: &R,
    words: &str,
    mut source: MemSource,
    mut out: MemSink,
) -> Result<Ended, Fail> {
    let alloc = rt.alloc();
    let words = words_of(alloc, words)?;
    let mut notes = sink_of(alloc, &[], &[])?;
    let status = run_program(rt, Ok(words), &mut source, &mut out, &mut notes, &Open);
    Ended::of(alloc, status, &out, &notes)
}

/// How a run of these words ends that reads this input.
fn told_by<R: AllocGlobal + Threads + Sync>(
    rt: &R,
    words: &str,
    input: &str,
) -> Result<Ended, Fail> {
    let alloc = rt.alloc();
    let source = source_of(alloc, input.as_bytes(), &[])?;
    ended_by(rt, words, source, sink_of(alloc, &[], &[])?)
}

/// One thread, nodes, and nodes that work side by side.
const MACHINES: [&str; 3] = ["one", "run", "run --nodes 3 --workers 2"];

/// By each of them a model has its text.
fn assert_run<R: Abort + AllocGlobal + Threads + Sync>(rt: &R, run: &Run) -> Result<(), Fail> {
    for words in &MACHINES {
        told_by(rt, words, run.model)?.expect(0, run.text, "", run.shows)?;
    }
    Ok(())
}

/// Words, an input, the status with which a run of them ends, and what it writes. Nothing is noted.
type Answer = (&'static str, &'static str, u8, &'static str);

/// Each input has its status and its text.
fn assert_answers<R: Abort + AllocGlobal + Threads + Sync>(
    rt: &R,
    answers: &[Answer],
) -> Result<(), Fail> {
    for (words, input, status, text) in answers {
        told_by(rt, words, input)?.expect(*status, text, "", words)?;
    }
    Ok(())
}

#[test]
fn totals_cycles_states_and_tables_are_those_of_an_independent_simulator(
    rt: HostRuntime,
) -> Result<(), Fail> {
    assert_answers(&rt, &totals::ALL)?;
    assert_answers(&rt, &tables::ALL)
}

/// By each machine each model has its text.
fn assert_runs<R: Abort + AllocGlobal + Threads + Sync>(rt: &R, runs: &[Run]) -> Result<(), Fail> {
    for run in runs {
        assert_run(rt, run)?;
    }
    Ok(())
}

#[test]
fn models_have_their_texts_by_each_machine(rt: HostRuntime) -> Result<(), Fail> {
    assert_runs(&rt, &runs::ALL)?;
    assert_runs(&rt, &times::ALL)
}
