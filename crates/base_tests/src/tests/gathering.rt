//! A sink that gathers small writes.
use sim_io::{CleanSink, Failed, GatheringSink, MemSink, Sink, StdSink, write_all};
use std::alloc::Global;
use std::process::Abort;
use std::test::Fail;
use test_texts::{Parts, built};

/// What is done with a sink, and what it answers.
enum Act {
    Write(Result<usize, Failed>),
    WriteAll,
    Flush(Result<(), Failed>),
}

/// An act, the bytes of a write, and all that has been handed on after it.
type Step = (Act, Parts, Parts);

/// A sink behind the one that gathers: how much room it has, how much it takes of a write, which of its calls fail and which
/// take nothing. And what is done.
struct Case {
    shows: &'static str,
    room: usize,
    most: usize,
    fails: &'static [u64],
    idle: &'static [u64],
    steps: &'static [Step],
}

/// Whether a sink answers so.
fn answers<K: Sink>(sink: &mut K, act: &Act, bytes: &[u8]) -> bool {
    match act {
        Act::Write(wanted) => sink.write(bytes) == *wanted,
        Act::WriteAll => write_all(sink, bytes) == Ok(()),
        Act::Flush(wanted) => sink.flush() == *wanted,
    }
}

/// A step comes out as it says.
fn assert_step<R: Abort>(
    rt: &R,
    alloc: Global,
    sink: &mut GatheringSink<MemSink>,
    step: &Step,
    shows: &str,
) -> Result<(), Fail> {
    let (act, parts, taken) = step;
    let bytes = built(alloc, parts)?;
    assert!(rt; answers(sink, act, bytes.as_bytes()), "{shows}");
    let taken = built(alloc, taken)?;
    assert!(rt; sink.inner().bytes() == taken.as_bytes(), "{shows}");
    Ok(())
}

/// All steps of a case come out as they say.
fn assert_case<R: Abort>(rt: &R, alloc: Global, case: &Case) -> Result<(), Fail> {
    assert!(rt; case.most >= 1);
    let fails = case.fails.to_vec(alloc)?;
    let idle = case.idle.to_vec(alloc)?;
    let inner = MemSink::new(alloc, case.room, fails, idle, case.most)?;
    let mut sink = GatheringSink::new(alloc, inner);
    for step in case.steps {
        assert_step(rt, alloc, &mut sink, step, case.shows)?;
    }
    Ok(())
}

const CASES: [Case; 4] = [
    Case {
        shows: "small writes are handed on at the end, in one call, since the second would fail",
        room: 40_000,
        most: 40_000,
        fails: &[2],
        idle: &[],
        steps: &[
            (Act::Write(Ok(7)), &[("0.0 p1 ", 1)], &[]),
            (Act::Write(Ok(8)), &[("hop 5 2\n", 1)], &[]),
            (Act::Write(Ok(15)), &[("end 9 events 1\n", 1)], &[]),
            (
                Act::Flush(Ok(())),
                &[],
                &[("0.0 p1 hop 5 2\nend 9 events 1\n", 1)],
            ),
            (
                Act::Flush(Ok(())),
                &[],
                &[("0.0 p1 hop 5 2\nend 9 events 1\n", 1)],
            ),
        ],
    },
    // a piece that would fill the buffer by itself goes straight on
    Case {
        shows: "what has no room follows what was gathered",
        room: 40_000,
        most: 40_000,
        fails: &[],
        idle: &[],
        steps: &[
            (Act::WriteAll, &[("a", 1)], &[]),
            (Act::WriteAll, &[("b", 16_384)], &[("a", 1), ("b", 16_384)]),
            (Act::WriteAll, &[("c", 16_383)], &[("a", 1), ("b", 16_384)]),
            (Act::WriteAll, &[("d", 1)], &[("a", 1), ("b", 16_384)]),
            (
                Act::WriteAll,
                &[("e", 1)],
                &[("a", 1), ("b", 16_384), ("c", 16_383), ("d", 1)],
            ),
            (
                Act::Flush(Ok(())),
                &[],
                &[("a", 1), ("b", 16_384), ("c", 16_383), ("de", 1)],
            ),
        ],
    },
    // five bytes a call, of which the third fails and the fourth takes nothing
    Case {
        shows: "what could not be handed on is kept",
        room: 100,
        most: 5,
        fails: &[3],
        idle: &[4],
        steps: &[
            (Act::WriteAll, &[("end 9 events 3\n", 1)], &[]),
            (Act::Flush(Err(Failed)), &[], &[("end 9 even", 1)]),
            (Act::Flush(Err(Failed)), &[], &[("end 9 even", 1)]),
            (Act::Flush(Ok(())), &[], &[("end 9 events 3\n", 1)]),
        ],
    },
    // neither the byte that was gathered nor the others could be handed on
    Case {
        shows: "a write that finds no room may fail",
        room: 40_000,
        most: 40_000,
        fails: &[1],
        idle: &[2],
        steps: &[
            (Act::WriteAll, &[("a", 1)], &[]),
            (Act::Write(Err(Failed)), &[("b", 20_000)], &[]),
            (Act::Write(Err(Failed)), &[("b", 20_000)], &[]),
            (
                Act::Write(Ok(20_000)),
                &[("b", 20_000)],
                &[("a", 1), ("b", 20_000)],
            ),
        ],
    },
];

#[test]
fn writes_are_gathered_and_handed_on_in_their_order(rt: HostRuntime) -> Result<(), Fail> {
    for case in &CASES {
        assert_case(&rt, rt.alloc(), case)?;
    }
    Ok(())
}

/// A line goes through a sink that gathers before this one.
fn gather<K: Sink + Drop>(alloc: Global, inner: K) -> Result<(), Failed> {
    let mut sink = GatheringSink::new(alloc, inner);
    write_all(&mut sink, b"end 9 events 3\n")?;
    sink.flush()
}

#[test]
fn any_sink_may_stand_behind(rt: HostRuntime) -> Result<(), Fail> {
    gather(rt.alloc(), CleanSink::new())?;
    let mut written = Vec::new(rt.alloc());
    gather(rt.alloc(), StdSink::new(&mut written))?;
    assert!(rt; written.as_slice() == b"end 9 events 3\n".as_slice());
    Ok(())
}
