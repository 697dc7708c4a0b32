//! Both sides of each limit of a model's text: the numbers that are just read and just refused, and the longest lists.
use super::{Answer, Changes, answer_of, model_of, replaced};
use model_core::model::Model;
use std::alloc::Global;
use std::process::Abort;
use std::test::Fail;
use test_texts::{PULSE, Parts, ROUTER_LOOP, built};

/// A number of a text: where it goes, what goes there with `#` for the number, the item that it belongs to, and a number
/// that is just too low, the least and the greatest that are read, and one that is just too high.
type Number = (&'static str, &'static str, u32, [i64; 4]);

const TIMES: [i64; 4] = [-1, 0, 70368744177663, 70368744177664];

const DELAYS: [i64; 4] = [-1, 0, 1099511627776, 1099511627777];

const RANKS: [i64; 4] = [-1, 0, 255, 256];

/// A model of PHOLD with every number at the top and in the table.
const HOPS: &str = "format = 2
model = \"phold\"
end = 9
seed = 0
limit = 10

[phold]
objects = 65536
delay = { law = \"fixed\", value = 5 }
to = \"next\"
each = 0
start = []
";

/// A network with an object of each kind and a job.
const KINDS: &str = "format = 2
model = \"network\"
end = 9

object = [
{ name = \"in\", kind = \"source\", first = 0, every = { law = \"fixed\", value = 2 }, count = 3, next = \"s\" },
{ name = \"s\", kind = \"station\", service = { law = \"fixed\", value = 3 }, next = \"w\" },
{ name = \"w\", kind = \"delay\", delay = { law = \"fixed\", value = 4 }, next = \"r\" },
{ name = \"r\", kind = \"router\", next = [\"out\", \"out\"], weights = [1, 1] },
{ name = \"out\", kind = \"sink\" },
]
job = [ { time = 4, at = \"s\" } ]
";

/// The answer to a text that has something new in place of what is old, with this value for its `#`.
fn answer_at(
    alloc: Global,
    text: &str,
    old: &str,
    new: &str,
    value: i64,
) -> Result<Option<Answer>, Fail> {
    let value = format!(in alloc; "{value}")?;
    let new = replaced(alloc, new, "#", value.as_str())?;
    let text = replaced(alloc, text, old, new.as_str())?;
    Ok(answer_of(alloc, text.as_bytes()))
}

/// A number of a text is read within its bounds, and refused beside them.
fn assert_bounds<R: Abort>(rt: &R, alloc: Global, text: &str, number: &Number) -> Result<(), Fail> {
    let (old, new, item, bounds) = number;
    let wanted = [(5, *item), (0, 0), (0, 0), (7, *item)];
    for (bound, answer) in bounds.iter().zip(wanted) {
        let given = answer_at(alloc, text, old, new, *bound)?;
        assert!(rt; given == Some(answer), "{new} {bound}");
    }
    Ok(())
}

/// The delay of `HOPS`.
const FIXED: &str = "law = \"fixed\", value = 5";

const STATION: &str = "kind = \"station\"";

const HOPS_NUMBERS: [Number; 11] = [
    ("end = 9", "end = #", 0, TIMES),
    ("limit = 10", "limit = #", 0, [0, 1, 1000000000, 1000000001]),
    ("objects = 65536", "objects = #", 0, [-1, 0, 65536, 65537]),
    ("each = 0", "each = #", 0, [-1, 0, 4, 5]),
    ("[]\n", "[]\nrank = #\n", 0, RANKS),
    (FIXED, "law = \"fixed\", value = #", 0, DELAYS),
    (
        FIXED,
        "law = \"geometric\", p = #, cap = 1",
        0,
        [0, 1, 4294967295, 4294967296],
    ),
    (
        FIXED,
        "law = \"geometric\", p = 1, cap = #",
        0,
        [0, 1, 65536, 65537],
    ),
    ("[]", "[ { time = #, at = 0 } ]", 1, TIMES),
    ("[]", "[ { time = 0, at = # } ]", 1, [-1, 0, 65535, 65536]),
    ("[]", "[ { time = 0, at = 0, rank = # } ]", 1, RANKS),
];

const KINDS_NUMBERS: [Number; 16] = [
    ("first = 0", "first = #", 1, TIMES),
    ("value = 2", "value = #", 1, DELAYS),
    ("count = 3", "count = #", 1, [0, 1, 1000000, 1000001]),
    (
        STATION,
        "kind = \"station\", servers = #",
        2,
        [0, 1, 1024, 1025],
    ),
    (
        STATION,
        "kind = \"station\", line = #",
        2,
        [-1, 0, 65536, 65537],
    ),
    ("value = 3", "value = #", 2, DELAYS),
    ("value = 4", "value = #", 3, DELAYS),
    ("[1, 1]", "[1, #]", 4, [-1, 0, 65535, 65536]),
    ("kind = \"sink\"", "kind = \"sink\", due = #", 5, TIMES),
    ("time = 4", "time = #", 6, TIMES),
    ("next = \"s\" ", "next = \"s\", rank = # ", 1, RANKS),
    ("next = \"w\" ", "next = \"w\", rank = # ", 2, RANKS),
    ("next = \"r\" ", "next = \"r\", rank = # ", 3, RANKS),
    ("[1, 1] ", "[1, 1], rank = # ", 4, RANKS),
    ("\"sink\" ", "\"sink\", rank = # ", 5, RANKS),
    ("at = \"s\" ", "at = \"s\", rank = # ", 6, RANKS),
];

const PULSE_NUMBERS: [Number; 2] = [
    ("flips = [2]", "flips = [2, #]", 1, TIMES),
    ("delay = 0", "delay = #", 3, DELAYS),
];

/// Each of these numbers of a text is read within its bounds, and refused beside them.
fn assert_all_bounds<R: Abort>(
    rt: &R,
    alloc: Global,
    text: &str,
    numbers: &[Number],
) -> Result<(), Fail> {
    for number in numbers {
        assert_bounds(rt, alloc, text, number)?;
    }
    Ok(())
}

#[test]
fn each_number_of_a_model_has_bounds(rt: HostRuntime) -> Result<(), Fail> {
    assert_all_bounds(&rt, rt.alloc(), HOPS, &HOPS_NUMBERS)?;
    assert_all_bounds(&rt, rt.alloc(), KINDS, &KINDS_NUMBERS)?;
    assert_all_bounds(&rt, rt.alloc(), PULSE, &PULSE_NUMBERS)
}

pub(super) const ALL: [Changes; 2] = [
    Changes {
        shows: "a format and a seed have bounds of their own",
        text: HOPS,
        changes: &[
            ("format = 2", "format = 0", (5, 0)),
            ("format = 2", "format = 1", (0, 0)),
            ("format = 2", "format = 2", (0, 0)),
            ("format = 2", "format = 3", (5, 0)),
            ("seed = 0", "seed = -1", (5, 0)),
            ("seed = 0", "seed = 9223372036854775807", (0, 0)),
            // such a number isn't one of TOML
            ("seed = 0", "seed = 9223372036854775808", (2, 0)),
        ],
    },
    Changes {
        shows: "a uniform law has two ends and a width",
        text: HOPS,
        changes: &[
            (FIXED, "law = \"uniform\", low = -1, high = 0", (5, 0)),
            (FIXED, "law = \"uniform\", low = 0, high = -1", (5, 0)),
            (FIXED, "law = \"uniform\", low = 0, high = 0", (0, 0)),
            (FIXED, "law = \"uniform\", low = 5, high = 4", (5, 0)),
            (FIXED, "law = \"uniform\", low = 5, high = 5", (0, 0)),
            (
                FIXED,
                "law = \"uniform\", low = 0, high = 4294967295",
                (0, 0),
            ),
            (
                FIXED,
                "law = \"uniform\", low = 0, high = 4294967296",
                (7, 0),
            ),
            (
                FIXED,
                "law = \"uniform\", low = 1095216660481, high = 1099511627776",
                (0, 0),
            ),
            (
                FIXED,
                "law = \"uniform\", low = 1095216660480, high = 1099511627776",
                (7, 0),
            ),
            (
                FIXED,
                "law = \"uniform\", low = 1099511627776, high = 1099511627776",
                (0, 0),
            ),
            (
                FIXED,
                "law = \"uniform\", low = 1099511627776, high = 1099511627777",
                (7, 0),
            ),
            (
                FIXED,
                "law = \"uniform\", low = 1099511627777, high = 1099511627777",
                (7, 0),
            ),
        ],
    },
];

/// A text with a long list, the place where it goes, its parts, and the answer.
type Long = (&'static str, &'static str, Parts, Answer);

const NETWORK: &str = "format = 1\nmodel = \"network\"\nend = 5\n#";

const CIRCUIT: &str = "format = 2\nmodel = \"circuit\"\nend = 5\n#";

const TABLE: &str = "format = 1\nmodel = \"phold\"\nend = 9\n[phold]\n#";

const WAYS: &str = "next = [\"r1\"]";

/// What stands before the flips of a first input, of a second one and of a last one, and behind them.
const FIRST: &str = "gate = [\n{ name = \"i0\", kind = \"input\", flips = [";

const SECOND: &str = "] },\n{ name = \"i1\", kind = \"input\", flips = [";

const LAST: &str = "] },\n{ name = \"last\", kind = \"input\", flips = [";

const END: &str = "] },\n]\n";

/// A gate with eight pins that one input feeds, and a gate that is fed by the one that is named next.
const EIGHT_FED: &str =
    "gate = [{ name = \"a\", kind = \"input\" }, { name = \"b\", kind = \"or\", from = [";

const AND_BY: &str = "] }, { name = \"d\", kind = \"not\", from = [";

/// The delays of so many objects, before their initial events.
const BEHIND_OBJECTS: &str =
    "delay = { law = \"fixed\", value = 1 }\nto = \"next\"\neach = 4\nstart = [";

const LONG: [Long; 16] = [
    // a text has at most a mebibyte
    ("#", "#", &[(" ", 1_048_576)], (3, 0)),
    ("#", "#", &[(" ", 1_048_577)], (1, 0)),
    // a list has at most 65536 entries: one of 0 is refused at its item, unless there are too many
    (HOPS, "[]", &[("[", 1), ("0,", 65_536), ("]", 1)], (5, 1)),
    (
        NETWORK,
        "#",
        &[("object = [", 1), ("0,", 65_536), ("]", 1)],
        (5, 1),
    ),
    (
        NETWORK,
        "#",
        &[("job = [", 1), ("0,", 65_536), ("]", 1)],
        (5, 1),
    ),
    (
        CIRCUIT,
        "#",
        &[("gate = [", 1), ("0,", 65_536), ("]", 1)],
        (5, 1),
    ),
    (HOPS, "[]", &[("[", 1), ("0,", 65_537), ("]", 1)], (7, 0)),
    (
        NETWORK,
        "#",
        &[("object = [", 1), ("0,", 65_537), ("]", 1)],
        (7, 0),
    ),
    (
        NETWORK,
        "#",
        &[("job = [", 1), ("0,", 65_537), ("]", 1)],
        (7, 0),
    ),
    (
        CIRCUIT,
        "#",
        &[("gate = [", 1), ("0,", 65_537), ("]", 1)],
        (7, 0),
    ),
    // a router has at most 64 ways
    (
        ROUTER_LOOP,
        WAYS,
        &[("next = [", 1), ("\"r1\",", 64), ("]", 1)],
        (0, 0),
    ),
    (
        ROUTER_LOOP,
        WAYS,
        &[("next = [", 1), ("\"r1\",", 64), ("\"r1\"]", 1)],
        (7, 1),
    ),
    (
        ROUTER_LOOP,
        WAYS,
        &[("next = [", 1), ("\"r1\",", 64), ("7]", 1)],
        (7, 1),
    ),
    // a gate feeds at most eight pins
    (
        CIRCUIT,
        "#",
        &[
            (EIGHT_FED, 1),
            ("\"a\", ", 8),
            (AND_BY, 1),
            ("\"b\"] }]\n", 1),
        ],
        (0, 0),
    ),
    (
        CIRCUIT,
        "#",
        &[
            (EIGHT_FED, 1),
            ("\"a\", ", 8),
            (AND_BY, 1),
            ("\"a\"] }]\n", 1),
        ],
        (7, 1),
    ),
    (
        CIRCUIT,
        "#",
        &[
            (EIGHT_FED, 1),
            ("\"a\", ", 8),
            (AND_BY, 1),
            ("\"c\"] }]\n", 1),
        ],
        (6, 3),
    ),
];

/// All inputs have at most 300000 flips. How many there are is judged before what they are: a text is refused at its item,
/// but only where it isn't one too many.
const FLIPS: [Long; 10] = [
    (
        CIRCUIT,
        "#",
        &[(FIRST, 1), ("0,", 299_999), (LAST, 1), ("0", 1), (END, 1)],
        (0, 0),
    ),
    (
        CIRCUIT,
        "#",
        &[
            (FIRST, 1),
            ("0,", 299_999),
            (LAST, 1),
            ("\"\"", 1),
            (END, 1),
        ],
        (5, 2),
    ),
    (
        CIRCUIT,
        "#",
        &[
            (FIRST, 1),
            ("0,", 299_999),
            (LAST, 1),
            ("0, 0", 1),
            (END, 1),
        ],
        (7, 2),
    ),
    (
        CIRCUIT,
        "#",
        &[
            (FIRST, 1),
            ("0,", 299_999),
            (LAST, 1),
            ("\"\", 0", 1),
            (END, 1),
        ],
        (7, 2),
    ),
    (
        CIRCUIT,
        "#",
        &[(FIRST, 1), ("0,", 300_000), (LAST, 1), (END, 1)],
        (0, 0),
    ),
    (
        CIRCUIT,
        "#",
        &[(FIRST, 1), ("0,", 300_000), (LAST, 1), ("0", 1), (END, 1)],
        (7, 2),
    ),
    (
        CIRCUIT,
        "#",
        &[(FIRST, 1), ("0,", 300_001), (LAST, 1), (END, 1)],
        (7, 1),
    ),
    (
        CIRCUIT,
        "#",
        &[
            (FIRST, 1),
            ("0,", 150_000),
            (SECOND, 1),
            ("0,", 149_999),
            (LAST, 1),
            ("0", 1),
            (END, 1),
        ],
        (0, 0),
    ),
    (
        CIRCUIT,
        "#",
        &[
            (FIRST, 1),
            ("0,", 150_000),
            (SECOND, 1),
            ("0,", 150_000),
            (LAST, 1),
            ("0", 1),
            (END, 1),
        ],
        (7, 3),
    ),
    (
        CIRCUIT,
        "#",
        &[
            (FIRST, 1),
            ("0,", 150_000),
            (SECOND, 1),
            ("0,", 150_001),
            (LAST, 1),
            (END, 1),
        ],
        (7, 2),
    ),
];

/// One object or one entry more than there may be.
const TOO_MANY: [Long; 2] = [
    (
        TABLE,
        "#",
        &[
            ("objects = 65537\n", 1),
            (BEHIND_OBJECTS, 1),
            ("{time=0,at=0},", 65_536),
            ("]\n", 1),
        ],
        (7, 0),
    ),
    (
        TABLE,
        "#",
        &[
            ("objects = 65536\n", 1),
            (BEHIND_OBJECTS, 1),
            ("{time=0,at=0},", 65_537),
            ("]\n", 1),
        ],
        (7, 0),
    ),
];

/// The answer to a text with a long list.
fn answer_to(alloc: Global, long: &Long) -> Result<Option<Answer>, Fail> {
    let (text, place, parts, _wanted) = long;
    let list = built(alloc, parts)?;
    let text = replaced(alloc, text, place, list.as_str())?;
    Ok(answer_of(alloc, text.as_bytes()))
}

/// Each text with a long list has its answer.
fn assert_all_long<R: Abort>(rt: &R, alloc: Global, all: &[Long]) -> Result<(), Fail> {
    for (row, long) in all.iter().enumerate() {
        assert!(rt; answer_to(alloc, long)? == Some(long.3), "row {row}");
    }
    Ok(())
}

#[test]
fn long_texts_are_read_or_refused(rt: HostRuntime) -> Result<(), Fail> {
    assert_all_long(&rt, rt.alloc(), &LONG)
}

#[test]
fn all_inputs_have_at_most_300000_flips(rt: HostRuntime) -> Result<(), Fail> {
    assert_all_long(&rt, rt.alloc(), &FLIPS)
}

/// As many objects and initial events as there may be.
const CROWDED: Parts = &[
    (
        "format = 1\nmodel = \"phold\"\nend = 9\n[phold]\nobjects = 65536\n",
        1,
    ),
    (BEHIND_OBJECTS, 1),
    ("{time=0,at=0},", 65_536),
    ("]\n", 1),
];

#[test]
fn a_model_of_phold_is_read_with_as_much_as_it_can_have(rt: HostRuntime) -> Result<(), Fail> {
    let text = built(rt.alloc(), CROWDED)?;
    let (model, _terms) = model_of(rt.alloc(), text.as_str())?;
    assert!(rt; model.objects() == 65_536);
    assert!(rt; model.starts() == 4 * 65_536 + 65_536);
    assert_all_long(&rt, rt.alloc(), &TOO_MANY)
}
