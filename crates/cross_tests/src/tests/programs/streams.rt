//! Reads and writes that fail at any call, and streams that go byte by byte.
use super::{ended_by, status_of, told_by};
use model_program::Open;
use sim_io::{CleanSink, CleanSource, MemSink, MemSource};
use std::alloc::AllocGlobal;
use std::process::Abort;
use std::test::Fail;
use std::thread::Threads;
use test_texts::wanted::SHOP_TEXT;
use test_texts::{SHOP, sink_of, source_of, text_of};

#[test]
fn a_read_that_fails_at_any_call(rt: HostRuntime) -> Result<(), Fail> {
    let alloc = rt.alloc();
    // 16 bytes a read, and one more read that finds the end.
    let reads = SHOP.len().div_ceil(16) as u64 + 1;
    for call in 1..=reads + 1 {
        let source = source_of(alloc, SHOP.as_bytes(), &[call])?;
        let run = ended_by(&rt, "run", source, sink_of(alloc, &[], &[])?, &Open)?;
        let (status, text, line) = if call <= reads {
            (4, "", "read failed\n")
        } else {
            (0, SHOP_TEXT, "")
        };
        run.expect(status, text, line, "a read that fails")?;
    }
    Ok(())
}

/// How much of the text is taken before each write. The buckets have 16, 31, 30, 34, 30, 34 and 19 bytes and the stop line 17,
/// in pieces of ten.
const TAKEN: [usize; 24] = [
    0, 10, 16, 26, 36, 46, 47, 57, 67, 77, 87, 97, 107, 111, 121, 131, 141, 151, 161, 171, 175,
    185, 194, 204,
];

/// Where writes fail at these calls and take nothing at those, a run ends so.
fn assert_written<R: Abort + AllocGlobal + Threads + Sync>(
    rt: &R,
    fails: &[u64],
    idle: &[u64],
    wanted: (u8, &str, &str),
) -> Result<(), Fail> {
    let source = source_of(rt.alloc(), SHOP.as_bytes(), &[])?;
    let out = sink_of(rt.alloc(), fails, idle)?;
    let run = ended_by(rt, "run", source, out, &Open)?;
    run.expect(wanted.0, wanted.1, wanted.2, "a write that fails")?;
    Ok(())
}

#[test]
fn a_write_that_fails_at_any_call(rt: HostRuntime) -> Result<(), Fail> {
    for (call, length) in (1..).zip(TAKEN) {
        let front = SHOP_TEXT.as_bytes().get(..length).ok_or("length")?;
        let front = std::str::from_utf8(front)?;
        let wanted = (5, front, "write failed\n");
        assert_written(&rt, &[call], &[], wanted)?;
        assert_written(&rt, &[], &[call], wanted)?;
    }
    // all calls but those that come
    assert_written(&rt, &[25], &[25], (0, SHOP_TEXT, ""))
}

#[test]
fn bytes_may_come_and_go_one_by_one(rt: HostRuntime) -> Result<(), Fail> {
    let alloc = rt.alloc();
    let source = MemSource::new(SHOP.as_bytes().to_vec(alloc)?, Vec::new(alloc), 1);
    let out = MemSink::new(alloc, 4096, Vec::new(alloc), Vec::new(alloc), 1)?;
    let run = ended_by(&rt, "run", source, out, &Open)?;
    run.expect(0, SHOP_TEXT, "", "one by one")?;
    Ok(())
}

#[test]
fn clean_input_and_output_have_no_faults(rt: HostRuntime) -> Result<(), Fail> {
    let alloc = rt.alloc();
    let mut source = CleanSource::new(SHOP.as_bytes().to_vec(alloc)?);
    let (mut out, mut notes) = (CleanSink::new(), CleanSink::new());
    let status = status_of(&rt, "run", &mut source, &mut out, &mut notes, &Open)?;
    assert!(rt; status == 0);
    Ok(())
}

/// A run whose writes of its text and of its notes fail at these calls, its status, its text, and how much of its notes is
/// taken.
struct FailingNotes {
    word: &'static str,
    model: &'static str,
    writes: &'static [u64],
    note_writes: &'static [u64],
    status: u8,
    text: &'static str,
    notes: &'static str,
}

/// The run has its status, its text and its notes.
fn assert_notes<R: Abort + AllocGlobal + Threads + Sync>(
    rt: &R,
    failing: &FailingNotes,
) -> Result<(), Fail> {
    let alloc = rt.alloc();
    let mut source = source_of(alloc, failing.model.as_bytes(), &[])?;
    let mut out = sink_of(alloc, failing.writes, &[])?;
    let mut notes = sink_of(alloc, failing.note_writes, &[])?;
    let status = status_of(rt, failing.word, &mut source, &mut out, &mut notes, &Open)?;
    assert!(rt; status == failing.status);
    assert!(rt; text_of(alloc, &out)?.as_str() == failing.text);
    assert!(rt; text_of(alloc, &notes)?.as_str() == failing.notes);
    Ok(())
}

const FAILING: [FailingNotes; 3] = [
    FailingNotes {
        word: "run",
        model: "",
        writes: &[],
        note_writes: &[2],
        status: 3,
        text: "",
        notes: "model: 3 M",
    },
    FailingNotes {
        word: "go",
        model: SHOP,
        writes: &[],
        note_writes: &[1],
        status: 2,
        text: "",
        notes: "",
    },
    FailingNotes {
        word: "run",
        model: SHOP,
        writes: &[3],
        note_writes: &[1],
        status: 5,
        text: "1.0 in make 1 2\n",
        notes: "",
    },
];

#[test]
fn failing_notes_change_only_the_notes(rt: HostRuntime) -> Result<(), Fail> {
    for failing in &FAILING {
        assert_notes(&rt, failing)?;
    }
    Ok(())
}

#[test]
fn each_prefix_of_a_model_is_refused_or_runs(rt: HostRuntime) -> Result<(), Fail> {
    for length in 0..=SHOP.len() {
        let bytes = SHOP.as_bytes().get(..length).ok_or("length")?;
        let run = told_by(&rt, "run", std::str::from_utf8(bytes)?)?;
        match run.status {
            0 => assert!(rt; run.text.as_str().ends_with("\n"), "{length}"),
            status => {
                assert!(rt; status == 3, "{length}");
                assert!(rt; run.text.as_str() == "");
            }
        }
    }
    Ok(())
}
