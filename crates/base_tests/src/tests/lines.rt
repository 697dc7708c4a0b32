//! The lines of a simulation's text.
ghost use Rattle.std.specs.Prelude.{◌<◌};
ghost use Rattle.sim_io.specs.Texts.{IsAtObject};

use super::key;
use super::named::Named;
use event_key::stamp_of;
use model_core::model::Model as SimulationModel;
use model_core::{Note, OutOfMemory, Part, RecordBuffer, Records};
use sim_io::{LineWriter, put_cycle, put_demo, put_stop};
use sim_spec::{Bucket, Stop, Terms};
use std::alloc::Global;
use std::process::Abort;
use std::test::Fail;

/// A record at a time, a step and an object, its parts, and its lines.
type Told = (u64, u32, u32, &'static [Part], &'static str);

/// A record of one part with this word, and the line with this name of the word.
macro_rules! word {
    ($word:literal, $name:literal) => {
        (
            4,
            0,
            1,
            &[Part {
                word: $word,
                a: 7,
                b: 0,
            }],
            concat!("4.0 p1 ", $name, " 7 0\n"),
        )
    };
}

/// A hop of five ticks at a time and an object to another one, and its line.
macro_rules! hop {
    ($time:literal, $dest:literal, $next:literal, $line:literal) => {
        (
            $time,
            0,
            $dest,
            &[Part {
                word: 1,
                a: 5,
                b: $next,
            }],
            $line,
        )
    };
}

const RECORDS: [Told; 30] = [
    word!(0, "0"),
    word!(1, "hop"),
    word!(2, "make"),
    word!(3, "take"),
    word!(4, "wait"),
    word!(5, "lose"),
    word!(6, "done"),
    word!(7, "hold"),
    word!(8, "route"),
    word!(9, "leave"),
    word!(10, "load"),
    word!(11, "level"),
    word!(12, "delay"),
    word!(13, "go"),
    word!(14, "drop"),
    word!(15, "late"),
    word!(16, "call"),
    word!(17, "free"),
    word!(18, "renege"),
    word!(19, "open"),
    word!(20, "down"),
    word!(21, "up"),
    word!(22, "22"),
    word!(4294967295, "4294967295"),
    hop!(0, 1, 2, "0.0 p1 hop 5 2\n"),
    hop!(5, 0, 1, "5.0 p0 hop 5 1\n"),
    hop!(5, 2, 0, "5.0 p2 hop 5 0\n"),
    // no part has no line
    (1, 0, 1, &[], ""),
    // each of two parts has a line
    (
        70_368_744_177_663,
        65_535,
        8,
        &[
            Part {
                word: 4,
                a: 2,
                b: 1,
            },
            Part {
                word: 3,
                a: 18_446_744_073_709_551_615,
                b: 0,
            },
        ],
        "70368744177663.65535 p8 wait 2 1\n70368744177663.65535 p8 take 18446744073709551615 0\n",
    ),
    // the longest line
    (
        140_737_488_355_327,
        65_535,
        8,
        &[Part {
            word: u32::MAX,
            a: u64::MAX,
            b: u64::MAX,
        }],
        "140737488355327.65535 p8 4294967295 18446744073709551615 18446744073709551615\n",
    ),
];

/// Appends the lines of a record.
fn put_told<R: Abort, M: SimulationModel>(
    rt: &R,
    alloc: Global,
    names: &M,
    lines: &mut LineWriter,
    record: &Told,
    text: &mut Vec<u8>,
) -> Result<(), OutOfMemory> {
    let (time, step, dest, parts, _told) = record;
    assert!(rt; *time < 140_737_488_355_328 && *step <= 65_535 && *dest < names.objects());
    lines.put_done(alloc, names, &key(*time, *step, *dest), parts, text)
}

/// The text is the one that is wanted. It is lent, and so are the lines below, since an assertion beside what is owned is dear.
fn assert_text<R: Abort>(rt: &R, text: &[u8], wanted: &[u8], last: &str) {
    assert!(rt; text == wanted, "{last}");
}

/// Records of these objects have their lines, one after another.
fn assert_records<R: Abort, M: SimulationModel>(
    rt: &R,
    alloc: Global,
    names: &M,
    lines: &mut LineWriter,
    text: &mut Vec<u8>,
    wanted: &mut Vec<u8>,
) -> Result<(), OutOfMemory> {
    for record in &RECORDS {
        put_told(rt, alloc, names, lines, record, text)?;
        wanted.extend_from_slice(record.4.as_bytes())?;
        assert_text(rt, text.as_slice(), wanted.as_slice(), record.4);
    }
    Ok(())
}

/// The records have their lines, and the line of the end comes behind them.
fn assert_run<R: Abort, M: SimulationModel>(
    rt: &R,
    alloc: Global,
    names: &M,
) -> Result<(), OutOfMemory> {
    let terms = Terms { end: 9, limit: 100 };
    let end = "end 9 events 3\n";
    let mut text = Vec::new(alloc);
    let mut wanted = Vec::new(alloc);
    let mut lines = LineWriter::new(alloc)?;
    assert_records(rt, alloc, names, &mut lines, &mut text, &mut wanted)?;
    put_stop(alloc, names, &terms, 3, &Stop::End, &mut text)?;
    wanted.extend_from_slice(end.as_bytes())?;
    assert_text(rt, text.as_slice(), wanted.as_slice(), end);
    Ok(())
}

/// A simulation of two events stops so, with this line.
fn assert_stop<R: Abort, M: SimulationModel>(
    rt: &R,
    alloc: Global,
    names: &M,
    stop: &Stop,
    wanted: &str,
) -> Result<(), OutOfMemory>
    requires { IsAtObject (M.meaning names.now) stop.now }
{
    let terms = Terms {
        end: 70_368_744_177_663,
        limit: 2,
    };
    let mut text = Vec::new(alloc);
    put_stop(alloc, names, &terms, 2, stop, &mut text)?;
    assert_text(rt, text.as_slice(), wanted.as_bytes(), wanted);
    Ok(())
}

/// The time, the step and the object of a fault, its code, and its line.
type Fault = (u64, u32, u32, u32, &'static str);

const FAULTS: [Fault; 4] = [
    (0, 65_535, 0, 1, "fault 0.65535 p0 chain\n"),
    (7, 0, 3, 2, "fault 7.0 p3 line-full\n"),
    (4, 0, 2, 3, "fault 4.0 p2 late\n"),
    (4, 1, 2, 40, "fault 4.1 p2 40\n"),
];

/// A fault at one of these objects has its line.
fn assert_fault<R: Abort, M: SimulationModel>(
    rt: &R,
    alloc: Global,
    names: &M,
    fault: &Fault,
) -> Result<(), OutOfMemory> {
    let (time, step, dest, code, wanted) = fault;
    assert!(rt; *time < 140_737_488_355_328 && *step <= 65_535 && *dest < names.objects());
    let key = key(*time, *step, *dest);
    let stop = Stop::Fault { key, code: *code };
    assert_stop(rt, alloc, names, &stop, wanted)
}

/// The records, the faults and other ends of a simulation of these objects have their lines.
fn assert_lines<R: Abort, M: SimulationModel>(
    rt: &R,
    alloc: Global,
    names: &M,
) -> Result<(), OutOfMemory> {
    assert_run(rt, alloc, names)?;
    for fault in &FAULTS {
        assert_fault(rt, alloc, names, fault)?;
    }
    assert_stop(
        rt,
        alloc,
        names,
        &Stop::End,
        "end 70368744177663 events 2\n",
    )?;
    assert_stop(rt, alloc, names, &Stop::Limit, "limit 2\n")
}

#[test]
fn records_tell_their_parts_and_the_last_line_why_a_simulation_stopped(
    rt: HostRuntime,
) -> Result<(), Fail> {
    Ok(assert_lines(&rt, rt.alloc(), &Named)?)
}

#[test]
fn the_counts_of_a_demo_and_a_cycle_with_its_horizon(rt: HostRuntime) -> Result<(), Fail> {
    let alloc = rt.alloc();
    let told = Note::of(Part {
        word: 1,
        a: 5,
        b: 1,
    });
    let mut done = RecordBuffer::new(alloc);
    done.push(&key(5, 0, 0), &told)?;
    done.push(&key(5, 0, 2), &told)?;
    let bucket = Bucket {
        done: Records::new(done),
        horizon: stamp_of(10, 1),
        fault: None,
        limited: false,
    };
    let mut text = Vec::new(alloc);
    put_demo(alloc, 1, 1501, 1500, stamp_of(1000, 2), &mut text)?;
    put_cycle(2, &bucket, &mut text)?;
    let wanted = "demo 1 events 1501 cycles 1500 last 1000.2\ncycle 2 horizon 10.1 events 2\n";
    assert!(rt; text.as_slice() == wanted.as_bytes());
    Ok(())
}
