//! Both sides of each limit of a text: the numbers that are just read and just refused, and the longest lists.
use super::{Answer, Changes, STEP, answer_of, replaced};
use crate::tests::models::MILL;
use std::alloc::Global;
use std::process::Abort;
use std::test::Fail;
use test_texts::{Parts, built};

/// A number of the mill's text: where it goes, what goes there with `#` for the number, the item that it belongs to, and a
/// number that is just too low, the least and the greatest that are read, and one that is just too high.
type Number = (&'static str, &'static str, u32, [&'static str; 4]);

const TICKS: [&str; 4] = ["-1", "0", "70368744177663", "70368744177664"];

const DELAYS: [&str; 4] = ["-1", "0", "1099511627776", "1099511627777"];

const SERVERS: [&str; 4] = ["-1", "0", "1024", "1025"];

const WEIGHTS: [&str; 4] = ["-1", "0", "65535", "65536"];

const FIXED: &str = "law = \"fixed\", value = 3 } }";

const NUMBERS: [Number; 25] = [
    ("end = 20", "end = #", 0, TICKS),
    ("end = 20", "end = 20\nfrom = #", 0, TICKS),
    (
        "end = 20",
        "end = 20\nlimit = #",
        0,
        ["0", "1", "1000000000", "1000000001"],
    ),
    ("line = 10", "servers = #", 1, SERVERS),
    ("line = 10", "line = #", 1, ["-1", "0", "65536", "65537"]),
    (
        "line = 10",
        "shifts = [ { at = #, servers = 1 } ]",
        1,
        DELAYS,
    ),
    (
        "line = 10",
        "shifts = [ { at = 1, servers = # } ]",
        1,
        SERVERS,
    ),
    (
        "line = 10",
        "period = #",
        1,
        ["0", "1", "1099511627776", "1099511627777"],
    ),
    ("first = 1", "first = #", 2, TICKS),
    ("first = 1", "until = #", 2, TICKS),
    ("first = 1", "times = [#]", 2, TICKS),
    (
        "count = 3",
        "count = #",
        2,
        ["0", "1", "9999999", "10000000"],
    ),
    ("count = 3", "priority = #", 2, ["-1", "0", "7", "8"]),
    ("count = 3", "due = #", 2, TICKS),
    ("value = 2", "value = #", 2, DELAYS),
    (
        FIXED,
        "law = \"uniform\", low = 1099511627776, high = # } }",
        2,
        ["-1", "1099511627776", "1099511627776", "1099511627777"],
    ),
    (
        FIXED,
        "law = \"uniform\", low = 4, high = # } }",
        2,
        ["3", "4", "4294967299", "4294967300"],
    ),
    (
        FIXED,
        "law = \"geometric\", p = #, cap = 1 } }",
        2,
        ["0", "1", "4294967295", "4294967296"],
    ),
    (
        FIXED,
        "law = \"geometric\", p = 1, cap = # } }",
        2,
        ["0", "1", "65536", "65537"],
    ),
    (
        FIXED,
        "law = \"geometric\", p = 1, cap = 1, unit = # } }",
        2,
        ["0", "1", "16777216", "16777217"],
    ),
    (FIXED, "law = \"table\", values = [#] } }", 2, DELAYS),
    (
        FIXED,
        "law = \"table\", values = [1, 2], weights = [1, #] } }",
        2,
        WEIGHTS,
    ),
    (
        FIXED,
        "law = \"steps\", bounds = [7, #] } }",
        2,
        ["7", "8", "4294967303", "4294967304"],
    ),
    (
        FIXED,
        "law = \"steps\", bounds = [1, 2, 3], weights = [#, 1] } }",
        2,
        WEIGHTS,
    ),
    (
        STEP,
        "{ go = [\"out\", \"out\"], weights = [#, 1] }",
        2,
        WEIGHTS,
    ),
];

/// The answer to the mill's text with something new in place of what is old, with this value for its `#`.
fn answer_at(alloc: Global, old: &str, new: &str, value: &str) -> Result<Option<Answer>, Fail> {
    let new = replaced(alloc, new, "#", value)?;
    let text = replaced(alloc, MILL, old, new.as_str())?;
    Ok(answer_of(alloc, text.as_bytes()))
}

/// A number is read within its bounds, and refused beside them.
fn assert_bounds<R: Abort>(rt: &R, alloc: Global, number: &Number) -> Result<(), Fail> {
    let (old, new, item, bounds) = number;
    let low = answer_at(alloc, old, new, bounds[0])?;
    assert!(rt; low == Some((5, *item)), "{new}");
    let least = answer_at(alloc, old, new, bounds[1])?;
    assert!(rt; least == Some((0, 0)), "{new}");
    let most = answer_at(alloc, old, new, bounds[2])?;
    assert!(rt; most == Some((0, 0)), "{new}");
    let high = answer_at(alloc, old, new, bounds[3])?;
    assert!(rt; high == Some((7, *item)), "{new}");
    Ok(())
}

#[test]
fn each_number_of_a_shop_has_bounds(rt: HostRuntime) -> Result<(), Fail> {
    for number in &NUMBERS {
        assert_bounds(&rt, rt.alloc(), number)?;
    }
    Ok(())
}

/// The mill's text but for its route, with the way out in place of its step.
const UNLINKED: &str = "format = 1
model = \"shop\"
end = 20
station = [ { name = \"mill\", line = 10 } ]
class = [ { name = \"part\", first = 1, every = { law = \"fixed\", value = 2 }, count = 3, route = [ { go = [\"out\"] } ] } ]
";

pub(super) const ALL: [Changes; 3] = [
    Changes {
        shows: "a seed has bounds of its own",
        text: MILL,
        changes: &[
            ("end = 20", "end = 20\nseed = -1", (5, 0)),
            ("end = 20", "end = 20\nseed = 0", (0, 0)),
            ("end = 20", "end = 20\nseed = 9223372036854775807", (0, 0)),
        ],
    },
    Changes {
        shows: "the name of a station has 1 to 16 letters",
        text: UNLINKED,
        changes: &[
            ("mill", "", (5, 1)),
            ("mill", "m", (0, 0)),
            ("mill", "a-mill_of_Basel7", (0, 0)),
            ("mill", "a-mill_of_Basel77", (5, 1)),
            ("mill", "m.", (5, 1)),
        ],
    },
    Changes {
        shows: "a label has 1 to 16 letters",
        text: MILL,
        changes: &[
            (STEP, "{ label = \"\", free = \"mill\" }", (5, 2)),
            (STEP, "{ label = \"m\", free = \"mill\" }", (0, 0)),
            (
                STEP,
                "{ label = \"a-mill_of_Basel7\", free = \"mill\" }",
                (0, 0),
            ),
            (
                STEP,
                "{ label = \"a-mill_of_Basel77\", free = \"mill\" }",
                (5, 2),
            ),
            (STEP, "{ label = \"m.\", free = \"mill\" }", (5, 2)),
        ],
    },
];

/// A text with a long list, the place where it goes, its parts, and the answer.
type Long = (&'static str, &'static str, Parts, Answer);

/// What stands before the ticks of a first class, and of a second one.
const TICKS_OF_ONE: &str =
    "format = 1\nmodel = \"shop\"\nend = 1\nclass = [ { name = \"a\", times = [";

const TICKS_OF_ANOTHER: &str = "], route = [ { go = [\"out\"] } ] }, { name = \"b\", times = [";

/// What stands before the stations.
const STATIONS: &str = "format = 1\nmodel = \"shop\"\nend = 1\nstation = [";

const LONG: [Long; 14] = [
    // a table of delays
    (
        MILL,
        STEP,
        &[
            ("{ delay = { law = \"table\", values = [", 1),
            ("7,", 1_024),
            ("] } }", 1),
        ],
        (0, 0),
    ),
    (
        MILL,
        STEP,
        &[
            ("{ delay = { law = \"table\", values = [", 1),
            ("7,", 1_025),
            ("] } }", 1),
        ],
        (7, 2),
    ),
    // the ways of a branch
    (
        MILL,
        STEP,
        &[("{ go = [", 1), ("\"out\",", 64), ("] }", 1)],
        (0, 0),
    ),
    (
        MILL,
        STEP,
        &[("{ go = [", 1), ("\"out\",", 65), ("] }", 1)],
        (7, 2),
    ),
    // the steps of a route
    (MILL, STEP, &[("{ free = \"mill\" },", 1_024)], (0, 0)),
    (MILL, STEP, &[("{ free = \"mill\" },", 1_025)], (7, 2)),
    // all classes name so many ticks
    (
        "#",
        "#",
        &[
            (TICKS_OF_ONE, 1),
            ("1,", 249_999),
            (TICKS_OF_ANOTHER, 1),
            ("1], route = [ { go = [\"out\"] } ] } ]\n", 1),
        ],
        (0, 0),
    ),
    (
        "#",
        "#",
        &[
            (TICKS_OF_ONE, 1),
            ("1,", 249_999),
            (TICKS_OF_ANOTHER, 1),
            ("1, -1], route = [ { go = [\"out\"] } ] } ]\n", 1),
        ],
        (7, 2),
    ),
    // there are so many stations and classes in all
    (
        "#",
        "#",
        &[
            (STATIONS, 1),
            ("{},", 65_536),
            ("]\nclass = [", 1),
            ("{},", 0),
            ("]\n", 1),
        ],
        (3, 1),
    ),
    (
        "#",
        "#",
        &[
            (STATIONS, 1),
            ("{},", 65_537),
            ("]\nclass = [", 1),
            ("{},", 0),
            ("]\n", 1),
        ],
        (7, 0),
    ),
    (
        "#",
        "#",
        &[
            (STATIONS, 1),
            ("{},", 0),
            ("]\nclass = [", 1),
            ("{},", 65_536),
            ("]\n", 1),
        ],
        (3, 1),
    ),
    (
        "#",
        "#",
        &[
            (STATIONS, 1),
            ("{},", 0),
            ("]\nclass = [", 1),
            ("{},", 65_537),
            ("]\n", 1),
        ],
        (7, 0),
    ),
    (
        "#",
        "#",
        &[
            (STATIONS, 1),
            ("{},", 32_768),
            ("]\nclass = [", 1),
            ("{},", 32_768),
            ("]\n", 1),
        ],
        (3, 1),
    ),
    (
        "#",
        "#",
        &[
            (STATIONS, 1),
            ("{},", 32_768),
            ("]\nclass = [", 1),
            ("{},", 32_769),
            ("]\n", 1),
        ],
        (7, 0),
    ),
];

/// The answer to a text with a long list.
fn answer_to(alloc: Global, long: &Long) -> Result<Option<Answer>, Fail> {
    let (text, place, parts, _wanted) = long;
    let list = built(alloc, parts)?;
    let text = replaced(alloc, text, place, list.as_str())?;
    Ok(answer_of(alloc, text.as_bytes()))
}

#[test]
fn long_lists_are_read_or_refused(rt: HostRuntime) -> Result<(), Fail> {
    for (row, long) in LONG.iter().enumerate() {
        assert!(rt; answer_to(rt.alloc(), long)? == Some(long.3), "row {row}");
    }
    Ok(())
}

/// A list whose entries rise: the place where it goes, what stands before it, an entry with `#` for its number, what stands
/// behind, how many entries there are, and the answer.
type Rising = (
    &'static str,
    &'static str,
    &'static str,
    &'static str,
    u32,
    Answer,
);

const SHIFT: &str = "{ at = #, servers = 1 }";

const BOUNDS: &str = "{ delay = { law = \"steps\", bounds = [";

const RISING: [Rising; 4] = [
    (STEP, BOUNDS, "#", "] } }", 1_025, (0, 0)),
    (STEP, BOUNDS, "#", "] } }", 1_026, (7, 2)),
    ("line = 10", "shifts = [", SHIFT, "]", 1_024, (0, 0)),
    ("line = 10", "shifts = [", SHIFT, "]", 1_025, (7, 1)),
];

/// What stands before, so many numbers from 0 on, each in place of the `#` of an entry, with commas, and what stands behind.
fn numbered(alloc: Global, rising: &Rising) -> Result<String, Fail> {
    let (_place, front, entry, back, count, _wanted) = rising;
    let (before, behind) = entry.split_once("#").ok_or("no such place")?;
    let mut all = String::from_str(alloc, front)?;
    for number in 0..*count {
        let next = format!(in alloc; "{before}{number}{behind},")?;
        all.push_str(next.as_str())?;
    }
    all.push_str(back)?;
    Ok(all)
}

#[test]
fn lists_of_numbers_that_rise_have_a_greatest_length(rt: HostRuntime) -> Result<(), Fail> {
    for rising in &RISING {
        let (place, _front, _entry, _back, count, wanted) = rising;
        let list = numbered(rt.alloc(), rising)?;
        let text = replaced(rt.alloc(), MILL, place, list.as_str())?;
        let answer = answer_of(rt.alloc(), text.as_bytes());
        assert!(rt; answer == Some(*wanted), "{count} after {place}");
    }
    Ok(())
}
