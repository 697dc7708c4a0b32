//! When the text is written, and what a failing end of it answers.
use super::{ended_by, status_of};
use model_program::Open;
use sim_io::{GatheringSink, MemSink};
use std::alloc::AllocGlobal;
use std::process::Abort;
use std::test::Fail;
use std::thread::Threads;
use test_texts::{Ended, LONG_TIE, source_of, text_of};

/// What each bucket of three tells, and why the simulation stopped.
const PIECES: [&str; 4] = [
    "0.0 p1 hop 5 2\n",
    "5.0 p0 hop 5 1\n5.0 p2 hop 5 0\n",
    "10.0 p0 hop 5 1\n10.0 p1 hop 5 2\n",
    "end 12 events 5\n",
];

/// A run by these words over the model with these buckets, of the ticks 0, 5 and 10, whose write of this number fails.
fn run_failing<R: AllocGlobal + Threads + Sync>(
    rt: &R,
    words: &str,
    call: u64,
) -> Result<Ended, Fail> {
    let alloc = rt.alloc();
    let out = MemSink::new(alloc, 4096, vec![in alloc; call]?, Vec::new(alloc), 4096)?;
    ended_by(
        rt,
        words,
        source_of(alloc, LONG_TIE.as_bytes(), &[])?,
        out,
        &Open,
    )
}

#[test]
fn each_bucket_is_written_after_its_cycle(rt: HostRuntime) -> Result<(), Fail> {
    for words in ["run", "one"] {
        let mut written = String::new(rt.alloc());
        for (call, piece) in (1..).zip(PIECES) {
            let run = run_failing(&rt, words, call)?;
            run.expect(5, written.as_str(), "write failed\n", words)?;
            written.push_str(piece)?;
        }
        let run = run_failing(&rt, words, 5)?;
        run.expect(0, written.as_str(), "", words)?;
    }
    Ok(())
}

/// A run over the same model into a sink that gathers what it is given, and hands it on to one that fails at this call. The
/// run has this status, text and note.
fn assert_gathered<R: Abort + AllocGlobal + Threads + Sync>(
    rt: &R,
    call: u64,
    status: u8,
    text: &[u8],
    line: &str,
) -> Result<(), Fail> {
    let alloc = rt.alloc();
    let inner = MemSink::new(alloc, 4096, vec![in alloc; call]?, Vec::new(alloc), 10)?;
    let mut out = GatheringSink::new(alloc, inner);
    let mut notes = MemSink::new(alloc, 4096, Vec::new(alloc), Vec::new(alloc), 4096)?;
    let mut source = source_of(alloc, LONG_TIE.as_bytes(), &[])?;
    let ended = status_of(rt, "run", &mut source, &mut out, &mut notes, &Open)?;
    assert!(rt; ended == status, "{call}");
    assert!(rt; out.inner().bytes() == text);
    assert!(rt; text_of(alloc, &notes)?.as_str() == line);
    Ok(())
}

#[test]
fn text_that_is_not_handed_on_is_a_write_that_failed(rt: HostRuntime) -> Result<(), Fail> {
    let text = PIECES.concat(rt.alloc())?;
    // The text has 93 bytes, which are gathered until the end: ten writes.
    for call in 1..=10 {
        let taken = text
            .as_bytes()
            .get(..(call as usize - 1) * 10)
            .ok_or("length")?;
        assert_gathered(&rt, call, 5, taken, "write failed\n")?;
    }
    assert_gathered(&rt, 11, 0, text.as_bytes(), "")
}
