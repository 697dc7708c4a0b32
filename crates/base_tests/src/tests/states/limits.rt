//! Both sides of each limit of a saved state: the numbers that are just read and just refused, and the longest lists.
use super::{Answer, Change, refusal_of};
use std::alloc::Global;
use std::test::Fail;
use test_texts::{Parts, TWO_JOBS, built};

const STATION: &str = "object 1 2 0 1 2 1 2 1 4";

const SINK: &str = "object 0 1 0 0";

const EVENT: &str = "6.0 0 0 0 0 2 1 4";

/// Each number of a state has bounds.
pub(super) const NUMBERS: [Change; 14] = [
    ("count 2", "count 10000000", (0, 0)),
    ("count 2", "count 10000001", (4, 2)),
    ("count 2", "count 18446744073709551615", (4, 2)),
    ("count 2", "count 18446744073709551616", (2, 2)),
    // eight messages for each event that is done
    (STATION, "object 16 2 0 1 2 1 2 1 4", (0, 0)),
    (STATION, "object 17 2 0 1 2 1 2 1 4", (4, 4)),
    (
        STATION,
        "object 18446744073709551615 2 0 1 2 1 2 1 4",
        (4, 4),
    ),
    (
        STATION,
        "object 18446744073709551616 2 0 1 2 1 2 1 4",
        (2, 4),
    ),
    (SINK, "object 0 1 18446744073709551615 0", (0, 0)),
    (SINK, "object 0 1 18446744073709551616 0", (2, 5)),
    (
        STATION,
        "object 1 2 0 1 2 1 18446744073709551615 1 4",
        (0, 0),
    ),
    (
        STATION,
        "object 1 2 0 1 2 1 18446744073709551616 1 4",
        (2, 4),
    ),
    ("events 1", "events 18446744073709551615", (2, 8)),
    ("events 1", "events 18446744073709551616", (2, 6)),
];

/// Each number of a pending event has bounds.
pub(super) const EVENT_NUMBERS: [Change; 24] = [
    (EVENT, "140737488355327.65535 0 0 0 0 2 1 4", (0, 0)),
    (EVENT, "140737488355328.0 0 0 0 0 2 1 4", (2, 7)),
    (EVENT, "6.65536 0 0 0 0 2 1 4", (2, 7)),
    (EVENT, "6.0 255 0 0 0 2 1 4", (0, 0)),
    (EVENT, "6.0 256 0 0 0 2 1 4", (4, 7)),
    (EVENT, "6.0 4294967295 0 0 0 2 1 4", (4, 7)),
    (EVENT, "6.0 4294967296 0 0 0 2 1 4", (2, 7)),
    (EVENT, "6.0 0 1 0 0 2 1 4", (0, 0)),
    (EVENT, "6.0 0 2 0 0 2 1 4", (4, 7)),
    (EVENT, "6.0 0 4294967296 0 0 2 1 4", (2, 7)),
    // the station has sent one message, the sink none, and there are two jobs
    (EVENT, "6.0 0 0 0 1 2 1 4", (4, 7)),
    (EVENT, "6.0 0 0 1 0 2 1 4", (4, 7)),
    (EVENT, "6.0 0 0 2 0 2 1 4", (4, 7)),
    (EVENT, "6.0 0 0 4294967295 1 2 1 4", (0, 0)),
    (EVENT, "6.0 0 0 4294967295 2 2 1 4", (4, 7)),
    (EVENT, "6.0 0 0 4294967296 0 2 1 4", (2, 7)),
    (EVENT, "6.0 0 0 0 18446744073709551615 2 1 4", (4, 7)),
    (EVENT, "6.0 0 0 0 18446744073709551616 2 1 4", (2, 7)),
    (EVENT, "6.0 0 0 0 0 4294967295 1 4", (0, 0)),
    (EVENT, "6.0 0 0 0 0 4294967296 1 4", (2, 7)),
    (EVENT, "6.0 0 0 0 0 2 18446744073709551615 4", (0, 0)),
    (EVENT, "6.0 0 0 0 0 2 18446744073709551616 4", (2, 7)),
    (EVENT, "6.0 0 0 0 0 2 1 18446744073709551615", (0, 0)),
    (EVENT, "6.0 0 0 0 0 2 1 18446744073709551616", (2, 7)),
];

/// No machine has the memory that these counts ask for, and the text ends before they are met.
pub(super) const LARGE_COUNTS: [Change; 5] = [
    (STATION, "object 1 1000000000000000 0 1 2 1 2 1 4", (2, 4)),
    (STATION, "object 1 2 0 1 1000000000000000 1 2 1 4", (2, 4)),
    (STATION, "object 1 2 0 1 2 1000000000000000 2 1 4", (2, 4)),
    (STATION, "object 1 2 0 1 2 1 2 1000000000000000 4", (2, 4)),
    ("events 1", "events 1000000000000000", (2, 8)),
];

/// What stands before the model in the state of the two jobs.
const FRONT: &str = "state 1
count 2
objects 2
object 1 2 0 1 2 1 2 1 4
object 0 1 0 0
events 1
event 6.0 0 0 0 0 2 1 4
";

/// A model of as many objects as there may be: 108 bytes.
const WIDE: &str =
    "format = 1\nmodel = \"phold\"\nend = 9\n[phold]\nobjects = 65536\ndelay = { law = \"fixed\", value = 1 }\nto = \"next\"\n";

/// The parts of long states, and the answers.
const LONG: [(Parts, Answer); 11] = [
    // bytes behind the model are refused
    (
        &[(FRONT, 1), ("model 223\n", 1), (TWO_JOBS, 1), ("\n", 1)],
        (2, 8),
    ),
    // a model in a state has at most a mebibyte
    (&[(FRONT, 1), ("model 0\n", 1)], (2, 8)),
    (&[(FRONT, 1), ("model 1\nx", 1)], (3, 8)),
    (&[(FRONT, 1), ("model 223\n", 1), (TWO_JOBS, 1)], (0, 0)),
    (
        &[
            (FRONT, 1),
            ("model 1048576\n", 1),
            (TWO_JOBS, 1),
            ("\n", 1_048_576 - 223),
        ],
        (0, 0),
    ),
    (
        &[
            (FRONT, 1),
            ("model 1048577\n", 1),
            (TWO_JOBS, 1),
            ("\n", 1_048_577 - 223),
        ],
        (2, 8),
    ),
    // a state has at most 65536 objects
    (
        &[
            ("state 1\ncount 0\nobjects 65535\n", 1),
            ("object 0 1 0 0\n", 65_535),
            ("events 0\nmodel 108\n", 1),
            (WIDE, 1),
        ],
        (4, 3),
    ),
    (
        &[
            ("state 1\ncount 0\nobjects 65536\n", 1),
            ("object 0 1 0 0\n", 65_536),
            ("events 0\nmodel 108\n", 1),
            (WIDE, 1),
        ],
        (0, 0),
    ),
    (
        &[
            ("state 1\ncount 0\nobjects 65537\n", 1),
            ("object 0 1 0 0\n", 65_537),
            ("events 0\nmodel 108\n", 1),
            (WIDE, 1),
        ],
        (2, 3),
    ),
    // a state has at most 64 mebibytes
    (&[("0", 67_108_864)], (2, 1)),
    (&[("0", 67_108_865)], (1, 0)),
];

#[test]
fn long_states_are_read_or_refused(rt: HostRuntime) -> Result<(), Fail> {
    for (row, (parts, wanted)) in LONG.iter().enumerate() {
        let text = built(rt.alloc(), parts)?;
        let refusal = refusal_of(rt.alloc(), text.as_bytes());
        assert!(rt; refusal == Some(*wanted), "{row}");
    }
    Ok(())
}

/// The state of a station with two jobs after 50,000 events, of which each object has sent 400,000 messages, and all of them
/// are pending. Behind them come these lines.
fn crowded(alloc: Global, events: u32, last: &str) -> Result<String, Fail> {
    let mut text = format!(in alloc;
        "state 1\ncount 50000\nobjects 2\nobject 400000 2 0 0 2 0 0\nobject 400000 1 0 0\nevents {events}\n"
    )?;
    for object in 0..2u32 {
        for serial in 0..400_000u32 {
            let event = format!(in alloc; "event 9.0 0 0 {object} {serial} 3 0 0\n")?;
            text.push_str(event.as_str())?;
        }
    }
    for rest in [last, "model 223\n", TWO_JOBS] {
        text.push_str(rest)?;
    }
    Ok(text)
}

#[test]
fn a_state_has_400000_pending_events_and_eight_for_each_that_is_done(
    rt: HostRuntime,
) -> Result<(), Fail> {
    let alloc = rt.alloc();
    let initial = "event 9.0 0 0 4294967295 0 3 0 0\n";
    for (events, last, wanted) in [(800_000, "", (0, 0)), (800_001, initial, (4, 6))] {
        let text = crowded(alloc, events, last)?;
        assert!(rt;
            refusal_of(alloc, text.as_bytes()) == Some(wanted),
            "{events} events"
        );
    }
    Ok(())
}
