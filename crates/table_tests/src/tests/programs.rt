//! Whole runs of the program over sources and sinks in memory: tables that were worked out by hand, failures and threads.
use super::{HOPS_OF_THE_LAST, HOPS_OF_THREE};
use replicate_program::replicate;
use sim_io::{MemSink, MemSource};
use std::alloc::AllocGlobal;
use std::test::Fail;
use std::thread::Threads;
use test_texts::{Ended, LOSING, SHOP, STRICT_LINE, sink_of, source_of, words_of};

/// One object that draws its delays.
const HOPS: &str = "format = 1
model = \"phold\"
end = 8

[phold]
objects = 1
delay = { law = \"uniform\", low = 1, high = 10 }
to = \"uniform\"
start = [ { time = 0, at = 0 } ]
";

/// How a run of these words ends over these streams.
fn ended_by<R: AllocGlobal + Threads + Sync>(
    rt: &R,
    words: &str,
    mut source: MemSource,
    mut out: MemSink,
) -> Result<Ended, Fail> {
    let words = words_of(rt.alloc(), words)?;
    let mut notes = sink_of(rt.alloc(), &[], &[])?;
    let status = replicate(rt, Ok(words), &mut source, &mut out, &mut notes);
    Ended::of(rt.alloc(), status, &out, &notes)
}

/// How a run of these words ends that reads this model, where these reads and these writes fail. A write takes 10 bytes.
fn told_by<R: AllocGlobal + Threads + Sync>(
    rt: &R,
    words: &str,
    model: &str,
    unread: &[u64],
    unwritten: &[u64],
) -> Result<Ended, Fail> {
    let source = source_of(rt.alloc(), model.as_bytes(), unread)?;
    ended_by(rt, words, source, sink_of(rt.alloc(), unwritten, &[])?)
}

/// What these words write of a model, with which status.
struct Run {
    words: &'static str,
    model: &'static str,
    table: &'static str,
    status: u8,
}

const RUNS: [Run; 7] = [
    Run {
        words: "1",
        model: SHOP,
        table: table!(
            "0,in,0,3,0,0,0,0,0,20,12,end"
            "0,s,3,3,0,9,3,0,1,20,12,end"
            "0,out,3,3,0,0,0,12,0,20,12,end"
        ),
        status: 0,
    },
    Run {
        words: "1 --from 4 --first 9",
        model: SHOP,
        table: table!(
            "9,in,0,1,0,0,0,0,0,16,12,end"
            "9,s,1,3,0,6,2,0,1,16,12,end"
            "9,out,3,3,0,0,0,12,0,16,12,end"
        ),
        status: 0,
    },
    Run {
        words: "1 --from 21",
        model: SHOP,
        table: table!(
            "0,in,0,0,0,0,0,0,0,0,12,end"
            "0,s,0,0,0,0,0,0,0,0,12,end"
            "0,out,0,0,0,0,0,0,0,0,12,end"
        ),
        status: 0,
    },
    Run {
        words: "1",
        model: LOSING,
        table: table!(
            "0,s,2,1,1,5,0,0,0,10,4,end"
            "0,out,1,1,0,0,0,5,0,10,4,end"
        ),
        status: 0,
    },
    Run {
        words: "3",
        model: HOPS,
        table: HOPS_OF_THREE,
        status: 0,
    },
    Run {
        words: "2 --first 9223372036854775807",
        model: HOPS,
        table: HOPS_OF_THE_LAST,
        status: 0,
    },
    Run {
        words: "1 --from 3",
        model: STRICT_LINE,
        table: table!(
            "0,s,2,0,0,2,1,0,1,4,2,fault"
            "0,out,0,0,0,0,0,0,0,4,2,fault"
        ),
        status: 1,
    },
];

#[test]
fn rows_that_were_worked_out(rt: HostRuntime) -> Result<(), Fail> {
    for run in &RUNS {
        let ended = told_by(&rt, run.words, run.model, &[], &[])?;
        ended.expect(run.status, run.table, "", run.words)?;
    }
    Ok(())
}

#[test]
fn one_worker_and_64_write_the_same_bytes(rt: HostRuntime) -> Result<(), Fail> {
    let one = told_by(&rt, "200 --workers 1", HOPS, &[], &[])?;
    let many = told_by(&rt, "200 --workers 64", HOPS, &[], &[])?;
    assert!(rt; one.status == 0);
    assert!(rt; many.status == 0);
    assert!(rt; one.text == many.text);
    Ok(())
}

#[test]
fn a_read_fails_at_each_call(rt: HostRuntime) -> Result<(), Fail> {
    for call in 1..8u64 {
        let ended = told_by(&rt, "2", HOPS, &[call], &[])?;
        ended.expect(4, "", "read failed\n", "a read fails")?;
    }
    Ok(())
}

#[test]
fn a_write_fails_at_each_call(rt: HostRuntime) -> Result<(), Fail> {
    for call in 1..8u64 {
        let ended = told_by(&rt, "2", HOPS, &[], &[call])?;
        assert!(rt; ended.status == 5);
        assert!(rt; ended.text.len() == 10 * (call as usize - 1));
        assert!(rt; ended.notes.as_str() == "write failed\n");
    }
    Ok(())
}

#[test]
fn a_refused_model_is_noted(rt: HostRuntime) -> Result<(), Fail> {
    let ended = told_by(&rt, "1", "format = 3", &[], &[])?;
    ended.expect(3, "", "model: 5 BadValue item 0\n", "another format")?;
    Ok(())
}
