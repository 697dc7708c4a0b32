//! The texts of small models: neither commands nor options change them.
use super::assert_by_all;
use std::alloc::AllocGlobal;
use std::process::Abort;
use std::test::Fail;
use std::thread::Threads;
use test_texts::wanted::{
    ELEVEN_EVENTS, FALSE_FAULT_TEXT, SHOP_CYCLES, SHOP_TEXT, TEN_EVENTS, TIE_TEXT,
};
use test_texts::{
    DRAWN, FALSE_FAULT, LATE, LOSING, NOTHING, PULSE, SHOP, SHOP_OF_ELEVEN, SHOP_OF_TEN,
    SHOP_OF_TWELVE, SHORT_DRAWN, SHORT_GATE_RING, SHORT_ROUTER_LOOP, SHORT_TIE, STRICT_LINE, TIE,
    TWO_JOBS,
};

/// A model, the status of its run, and its text.
type Told = (&'static str, u8, &'static str);

/// Words that tell the records of a model: one thread, and as few and as many nodes as there may be, that run as little
/// and as far ahead as they may, with objects placed either way, by workers, and with objects that move.
const RECORDS: [&str; 27] = [
    "one",
    "run",
    "run --nodes 1 --ahead 0",
    "run --nodes 1 --ahead 1",
    "run --nodes 1 --ahead 8 --placement block",
    "run --nodes 1 --ahead 1024",
    "run --nodes 2 --ahead 0",
    "run --nodes 2 --ahead 1",
    "run --nodes 2 --ahead 1 --placement block",
    "run --nodes 2 --ahead 8",
    "run --nodes 2 --ahead 8 --placement block",
    "run --nodes 2 --ahead 1024",
    "run --nodes 3 --ahead 1024",
    "run --nodes 3 --ahead 1024 --placement block",
    "run --nodes 5 --ahead 1",
    "run --nodes 64 --ahead 0",
    "run --nodes 64 --ahead 0 --placement block",
    "run --nodes 64 --ahead 1",
    "run --nodes 64 --ahead 1 --placement block",
    "run --nodes 64 --ahead 1024",
    "run --nodes 64 --ahead 1024 --placement block",
    "run --nodes 4 --workers 2",
    "run --nodes 3 --workers 64",
    "run --nodes 1 --workers 1",
    "run --nodes 3 --ahead 1 --moves turn",
    "run --nodes 2 --ahead 1 --moves load",
    "run --nodes 2 --ahead 8 --moves turn",
];

/// Words that tell lines of cycles too.
const CYCLES: [&str; 6] = [
    "one --cycles",
    "run --cycles",
    "run --cycles --ahead 0 --nodes 1",
    "run --cycles --ahead 8 --nodes 2",
    "run --cycles --ahead 1024 --nodes 2",
    "run --cycles --ahead 1 --nodes 5",
];

/// By all of these words each of these models has its status and its text.
fn assert_all<R: Abort + AllocGlobal + Threads + Sync>(
    rt: &R,
    all: &[&str],
    models: &[Told],
) -> Result<(), Fail> {
    for (model, status, text) in models {
        assert_by_all(rt, all, model, *status, text)?;
    }
    Ok(())
}

const MODELS: [Told; 16] = [
    (SHOP, 0, SHOP_TEXT),
    // the end is told before a limit that is just met
    (SHOP_OF_TWELVE, 0, SHOP_TEXT),
    // jobs of one stamp are ordered by number
    (
        TWO_JOBS,
        0,
        "4.0 s take 1 0\n4.0 s wait 2 1\n6.0 s done 1 0\n6.1 out leave 1 2\n8.0 s done 2 0\n8.1 out leave 2 4\nend 10 events 6\n",
    ),
    // a station without a line loses jobs
    (
        LOSING,
        0,
        "1.0 s take 1 0\n2.0 s lose 2 0\n6.0 s done 1 0\n6.1 out leave 1 5\nend 10 events 4\n",
    ),
    // the line is full only where the first job still waits
    (FALSE_FAULT, 0, FALSE_FAULT_TEXT),
    // a strict station fails where its line is full
    (
        STRICT_LINE,
        1,
        "5.0 s take 1 0\n6.0 s wait 2 1\nfault 7.0 s line-full\n",
    ),
    // a job that is too old fails at its sink
    (LATE, 1, "0.0 d hold 1 4\nfault 4.0 out late\n"),
    // the limit ends a job that goes round
    (
        SHORT_ROUTER_LOOP,
        7,
        "0.0 r0 route 1 1\n0.1 r1 route 1 0\n0.2 r0 route 1 1\n0.3 r1 route 1 0\nlimit 4\n",
    ),
    (NOTHING, 0, "end 20 events 0\n"),
    (
        "format = 1\nmodel = \"network\"\nend = 70368744177663\n",
        0,
        "end 70368744177663 events 0\n",
    ),
    // equal stamps are ordered by destination
    (TIE, 0, TIE_TEXT),
    (SHORT_TIE, 7, "0.0 p1 hop 5 2\n5.0 p0 hop 5 1\nlimit 2\n"),
    // the last event comes just at the end
    (
        DRAWN,
        0,
        "0.0 p0 hop 5 0\n5.0 p0 hop 3 0\n8.0 p0 hop 4 0\nend 8 events 3\n",
    ),
    // what is sent past the end never happens
    (
        SHORT_DRAWN,
        0,
        "0.0 p0 hop 5 0\n5.0 p0 hop 3 0\nend 7 events 2\n",
    ),
    (
        PULSE,
        0,
        "0.0 n level 1 0
2.0 a level 1 0
2.1 n level 0 0
2.1 z level 1 0
3.0 z level 0 0
end 5 events 7
",
    ),
    (
        SHORT_GATE_RING,
        7,
        "0.0 n level 1 0\n0.1 n level 0 0\n0.2 n level 1 0\nlimit 3\n",
    ),
];

const WITH_CYCLES: [Told; 5] = [
    (SHOP, 0, SHOP_CYCLES),
    (SHOP_OF_ELEVEN, 7, ELEVEN_EVENTS),
    (SHOP_OF_TEN, 7, TEN_EVENTS),
    // an event at the horizon waits for the next cycle
    (
        TIE,
        0,
        "0.0 p1 hop 5 2\ncycle 1 horizon 5.0 events 1\n5.0 p0 hop 5 1\n5.0 p2 hop 5 0\ncycle 2 horizon 10.0 events 2\nend 9 events 3\n",
    ),
    (NOTHING, 0, "end 20 events 0\n"),
];

#[test]
fn models_have_one_text_and_each_whole_bucket_has_its_horizon_told(
    rt: HostRuntime,
) -> Result<(), Fail> {
    assert_all(&rt, &RECORDS, &MODELS)?;
    assert_all(&rt, &CYCLES, &WITH_CYCLES)
}
