//! Totals of what is told of two objects.
ghost use Rattle.std.specs.Prelude.{◌≡◌, ◌≤◌, IfOk, length};

use super::key;
use model_core::{
    DONE_WORD, HELD_WORD, HOP_WORD, LEFT_WORD, LOAD_WORD, LOST_WORD, MADE_WORD, OutOfMemory, Part,
    ROUTED_WORD, TAKEN_WORD, WAITING_WORD,
};
use sim_stats::Totals;
use std::alloc::Global;
use std::process::Abort;
use std::test::Fail;

/// A time, an object and the words that are told there.
type Record = (u64, u32, &'static [u32]);

/// A part of this word.
fn part(word: u32) -> Part {
    Part { word, a: 0, b: 0 }
}

/// A part of each of these words.
fn parts_of(alloc: Global, words: &[u32]) -> Result<Vec<Part>, OutOfMemory> {
    let mut parts = Vec::new(alloc);
    for word in words {
        parts.push(part(*word))?;
    }
    Ok(parts)
}

/// The totals of records for two objects.
fn sum_up(rt: &impl Abort, alloc: Global, records: &[Record]) -> Result<Totals, OutOfMemory>
    requires { length records.now ≤ 1000 }
    ensures { IfOk result (λ totals. length totals.objects ≡ 2) }
{
    let mut totals = Totals::new(alloc, 2)?;
    let mut last = 0;
    for (time, dest, words) in records {
        let parts = parts_of(alloc, words)?;
        assert!(rt; last <= *time && *time < 1000 && *dest < 2 && parts.len() <= 4);
        totals.add(&key(*time, 0, *dest), parts.as_slice());
        last = *time;
    }
    Ok(totals)
}

/// Totals of two objects, `p0` and `p1`, have these lines.
fn assert_lines(
    rt: &impl Abort,
    alloc: Global,
    totals: &Totals,
    wanted: &str,
    shows: &str,
) -> Result<(), OutOfMemory>
    requires { length totals.now.objects ≡ 2 }
{
    let mut text = Vec::new(alloc);
    for object in 0..2u32 {
        let name = format!(in alloc; "p{object}")?;
        text.extend_from_slice(name.as_bytes())?;
        totals.of_object(object).put(alloc, &mut text)?;
    }
    assert!(rt; text.as_slice() == wanted.as_bytes(), "{shows}");
    Ok(())
}

/// Records, and the lines of their totals.
struct Case {
    shows: &'static str,
    records: &'static [Record],
    lines: &'static str,
}

/// A case of one record with this word, and what the line of its object counts.
macro_rules! one_word {
    ($word:ident, $counts:literal) => {
        Case {
            shows: "a word counts for what it tells",
            records: &[(9, 0, &[$word])],
            lines: concat!(
                $counts,
                " busy 0 waiting 0\np1 arrivals 0 served 0 lost 0 busy 0 waiting 0\n"
            ),
        }
    };
}

const CASES: [Case; 13] = [
    Case {
        shows: "a station and a sink",
        records: &[
            (1, 0, &[TAKEN_WORD]),
            (3, 0, &[WAITING_WORD]),
            (4, 0, &[DONE_WORD]),
            (4, 1, &[LEFT_WORD]),
            (5, 0, &[WAITING_WORD]),
            (7, 0, &[DONE_WORD]),
            (7, 1, &[LEFT_WORD]),
            (10, 0, &[DONE_WORD]),
            (10, 1, &[LEFT_WORD]),
        ],
        lines: "p0 arrivals 3 served 3 lost 0 busy 9 waiting 3
p1 arrivals 3 served 3 lost 0 busy 0 waiting 0
",
    },
    Case {
        shows: "a traced station, which tells its load too, and a quiet sink",
        records: &[
            (1, 0, &[TAKEN_WORD, LOAD_WORD]),
            (3, 0, &[WAITING_WORD, LOAD_WORD]),
            (4, 0, &[DONE_WORD, LOAD_WORD]),
            (4, 1, &[]),
            (5, 0, &[WAITING_WORD, LOAD_WORD]),
            (7, 0, &[DONE_WORD, LOAD_WORD]),
            (7, 1, &[]),
            (10, 0, &[DONE_WORD, LOAD_WORD]),
            (10, 1, &[]),
        ],
        lines: "p0 arrivals 3 served 3 lost 0 busy 9 waiting 3
p1 arrivals 0 served 0 lost 0 busy 0 waiting 0
",
    },
    one_word!(HOP_WORD, "p0 arrivals 1 served 1 lost 0"),
    one_word!(MADE_WORD, "p0 arrivals 0 served 1 lost 0"),
    one_word!(TAKEN_WORD, "p0 arrivals 1 served 0 lost 0"),
    one_word!(WAITING_WORD, "p0 arrivals 1 served 0 lost 0"),
    one_word!(LOST_WORD, "p0 arrivals 1 served 0 lost 1"),
    one_word!(DONE_WORD, "p0 arrivals 0 served 1 lost 0"),
    one_word!(HELD_WORD, "p0 arrivals 1 served 1 lost 0"),
    one_word!(ROUTED_WORD, "p0 arrivals 1 served 1 lost 0"),
    one_word!(LEFT_WORD, "p0 arrivals 1 served 1 lost 0"),
    one_word!(LOAD_WORD, "p0 arrivals 0 served 0 lost 0"),
    // one is served and two wait from 2 to 6, one is served from then to 9
    Case {
        shows: "all parts of a record are told at its time",
        records: &[
            (2, 1, &[]),
            (2, 1, &[TAKEN_WORD, WAITING_WORD, WAITING_WORD]),
            (5, 1, &[]),
            (6, 1, &[DONE_WORD, DONE_WORD]),
            (9, 1, &[DONE_WORD, DONE_WORD]),
            (11, 1, &[DONE_WORD, DONE_WORD]),
        ],
        lines: "p0 arrivals 0 served 0 lost 0 busy 0 waiting 0
p1 arrivals 3 served 6 lost 0 busy 7 waiting 8
",
    },
];

#[test]
fn totals_are_sums_of_what_records_tell(rt: HostRuntime) -> Result<(), Fail> {
    for case in &CASES {
        assert!(rt; case.records.len() <= 1000);
        let totals = sum_up(&rt, rt.alloc(), case.records)?;
        assert_lines(&rt, rt.alloc(), &totals, case.lines, case.shows)?;
    }
    Ok(())
}

/// Totals of 262,144 jobs that come to the first object at time 0.
fn crowded(alloc: Global) -> Result<Totals, OutOfMemory>
    ensures { IfOk result (λ totals. (length totals.objects ≡ 2) × (totals.records ≤ 65536) × (totals.last ≡ 0)) }
{
    let four = [part(TAKEN_WORD); 4];
    let mut totals = Totals::new(alloc, 2)?;
    for _ in 0..65536u64 {
        totals.add(&key(0, 0, 0), four.as_slice());
    }
    Ok(totals)
}

#[test]
fn sums_of_more_than_64_bits(rt: HostRuntime) -> Result<(), Fail> {
    let mut totals = crowded(rt.alloc())?;
    let done = [part(DONE_WORD)];
    totals.add(&key(140_737_488_355_327, 0, 0), done.as_slice());
    // 2^18 servers for 2^47 - 1 ticks: 2^65 - 2^18
    let wanted = "p0 arrivals 262144 served 1 lost 0 busy 36893488147418841088 waiting 0\n\
                  p1 arrivals 0 served 0 lost 0 busy 0 waiting 0\n";
    assert_lines(&rt, rt.alloc(), &totals, wanted, "sums")?;
    Ok(())
}
