//! Tables of replications: those that an independent simulator wrote, workers, and reads and writes that fail.
use super::models::{JUMP, MILL, MILL_FROM_4, MILL_FROM_21};
use super::{Answer, ended_by, told_by};
use std::alloc::AllocGlobal;
use std::process::Abort;
use std::test::Fail;
use std::thread::Threads;
use test_texts::{Ended, sink_of, source_of};

/// Two classes, whose arrivals and services are drawn.
const DRAWS: &str = "format = 1
model = \"shop\"
end = 60
station = [ { name = \"a\", servers = 2 }, { name = \"b\", line = 0 } ]
class = [ { name = \"x\", every = { law = \"uniform\", low = 1, high = 9 }, route = [ { at = \"a\", service = { law = \"uniform\", low = 2, high = 12 } }, { at = \"b\", service = { law = \"fixed\", value = 4 } } ] },
  { name = \"y\", times = [3, 3, 9], due = 4, route = [ { at = \"b\", service = { law = \"uniform\", low = 1, high = 6 }, patience = { law = \"fixed\", value = 2 } } ] } ]
";

/// The table of these rows.
macro_rules! table {
    ($rows:literal) => {
        concat!(
            "seed,line,came,begun,done,lost,reneged,busy,waiting,open,down,waited,made,left,dropped,late,ages,inside,ticks,events,stop\n",
            $rows
        )
    };
}

/// Tables that an independent simulator wrote.
pub(super) const ALL: [Answer; 5] = [
    (
        "replicate 2 --first 5",
        MILL,
        0,
        table!(
            "5,mill,3,3,3,0,0,9,3,20,0,,,,,,,,20,14,end\n5,mill/part,3,3,3,0,0,,,,,3,,,,,,,20,14,end\n5,part,,,,,,,,,,,3,3,0,0,12,12,20,14,end\n6,mill,3,3,3,0,0,9,3,20,0,,,,,,,,20,14,end\n6,mill/part,3,3,3,0,0,,,,,3,,,,,,,20,14,end\n6,part,,,,,,,,,,,3,3,0,0,12,12,20,14,end\n"
        ),
    ),
    (
        "replicate 1",
        MILL_FROM_4,
        0,
        table!(
            "0,mill,1,2,3,0,0,6,2,16,0,,,,,,,,16,14,end\n0,mill/part,1,2,3,0,0,,,,,3,,,,,,,16,14,end\n0,part,,,,,,,,,,,1,3,0,0,12,8,16,14,end\n"
        ),
    ),
    (
        "replicate 1",
        MILL_FROM_21,
        0,
        table!(
            "0,mill,0,0,0,0,0,0,0,0,0,,,,,,,,0,14,end\n0,mill/part,0,0,0,0,0,,,,,0,,,,,,,0,14,end\n0,part,,,,,,,,,,,0,0,0,0,0,0,0,14,end\n"
        ),
    ),
    (
        "replicate 1",
        JUMP,
        7,
        table!("0,c,,,,,,,,,,,1,0,0,0,0,0,0,3,limit\n"),
    ),
    (
        "replicate 2 --first 9223372036854775807",
        DRAWS,
        0,
        table!(
            "9223372036854775807,a,11,11,10,0,0,72,1,120,0,,,,,,,,60,69,end\n9223372036854775807,a/x,11,11,10,0,0,,,,,1,,,,,,,60,69,end\n9223372036854775807,b,13,7,7,6,0,27,0,60,0,,,,,,,,60,69,end\n9223372036854775807,b/x,10,6,6,4,0,,,,,0,,,,,,,60,69,end\n9223372036854775807,b/y,3,1,1,2,0,,,,,0,,,,,,,60,69,end\n9223372036854775807,x,,,,,,,,,,,11,6,4,0,68,97,60,69,end\n9223372036854775807,y,,,,,,,,,,,3,1,2,0,3,3,60,69,end\n0,a,13,13,12,0,0,88,18,120,0,,,,,,,,60,87,end\n0,a/x,13,13,12,0,0,,,,,18,,,,,,,60,87,end\n0,b,15,10,9,5,0,35,0,60,0,,,,,,,,60,87,end\n0,b/x,12,8,7,4,0,,,,,0,,,,,,,60,87,end\n0,b/y,3,2,2,1,0,,,,,0,,,,,,,60,87,end\n0,x,,,,,,,,,,,13,7,4,0,82,136,60,87,end\n0,y,,,,,,,,,,,3,2,1,0,5,5,60,87,end\n"
        ),
    ),
];

#[test]
fn one_worker_and_64_write_the_same_bytes(rt: HostRuntime) -> Result<(), Fail> {
    let one = told_by(&rt, "replicate 50 --workers 1", DRAWS)?;
    let many = told_by(&rt, "replicate 50 --workers 64", DRAWS)?;
    assert!(rt; one.status == 0);
    many.expect(0, one.text.as_str(), "", "64 workers")?;
    Ok(())
}

/// A table of which the read with this number fails.
fn unread<R: AllocGlobal + Threads + Sync>(rt: &R, call: u64) -> Result<Ended, Fail> {
    let alloc = rt.alloc();
    let source = source_of(alloc, MILL.as_bytes(), &[call])?;
    ended_by(rt, "replicate 2", source, sink_of(alloc, &[], &[])?)
}

/// A table of which the write with this number fails.
fn unwritten<R: AllocGlobal + Threads + Sync>(rt: &R, call: u64) -> Result<Ended, Fail> {
    let alloc = rt.alloc();
    let source = source_of(alloc, MILL.as_bytes(), &[])?;
    ended_by(rt, "replicate 2", source, sink_of(alloc, &[call], &[])?)
}

#[test]
fn reads_and_writes_fail_at_each_call(rt: HostRuntime) -> Result<(), Fail> {
    for call in 1..8u64 {
        unread(&rt, call)?.expect(4, "", "read failed\n", "a read")?;
        let ended = unwritten(&rt, call)?;
        assert!(rt; ended.status == 5);
        assert!(rt; ended.text.len() == 10 * (call as usize - 1));
        assert!(rt; ended.notes.as_str() == "write failed\n");
    }
    Ok(())
}
