//! What a text is refused for, and the order of the checks.
use super::{CLINIC, Changes, STEP, answer_of};
use crate::tests::models::MILL;

/// The route of the mill's parts.
const ROUTE: &str = "route = [ { at = \"mill\", service = { law = \"fixed\", value = 3 } } ]";

pub(super) const ALL: [Changes; 11] = [
    Changes {
        shows: "what is no text of a shop",
        text: "#",
        changes: &[
            ("#", "", (3, 0)),
            ("#", "format = ", (2, 0)),
            ("#", "color = 1", (3, 0)),
        ],
    },
    Changes {
        shows: "the top table is checked in its order",
        text: MILL,
        changes: &[
            ("format = 1", "format = 2", (5, 0)),
            ("format = 1", "format = \"1\"", (5, 0)),
            ("format = 1\nmodel = \"shop\"", "model = \"mill\"", (3, 0)),
            ("\"shop\"", "\"network\"", (5, 0)),
            ("\"shop\"", "1", (5, 0)),
            ("model = \"shop\"\nend = 20\n", "", (3, 0)),
            ("end = 20\n", "", (3, 0)),
            ("end = 20", "end = -1\nseed = 9223372036854775808", (2, 0)),
            ("end = 20", "end = 20\nseed = -1", (5, 0)),
            (
                "end = 20",
                "end = 20\nlimit = 0\nfrom = 70368744177664",
                (5, 0),
            ),
            (
                "end = 20",
                "end = 20\nfrom = 70368744177664\ncolor = 1",
                (7, 0),
            ),
            ("end = 20", "end = 20\ncolor = 1", (4, 0)),
            (
                "station = [ { name = \"mill\", line = 10 } ]",
                "station = 1\ncolor = 1",
                (4, 0),
            ),
            (
                "station = [ { name = \"mill\", line = 10 } ]",
                "station = 1",
                (5, 0),
            ),
            (
                "station = [ { name = \"mill\", line = 10 } ]",
                "station = [1]",
                (5, 1),
            ),
            ("station = [ { name = \"mill\", line = 10 } ]", "", (6, 1)),
        ],
    },
    Changes {
        shows: "what classes are is checked before the stations",
        text: "format = 1\nmodel = \"shop\"\nend = 9\n#",
        changes: &[("#", "station = [1]\nclass = 1\n", (5, 0))],
    },
    Changes {
        shows: "a station is checked in its order",
        text: MILL,
        changes: &[
            ("name = \"mill\", ", "", (3, 1)),
            ("name = \"mill\", ", "name = 1, ", (5, 1)),
            ("name = \"mill\", ", "name = \"\", ", (5, 1)),
            ("name = \"mill\", ", "name = \"two words\", ", (5, 1)),
            ("line = 10", "line = 10, color = 1", (4, 1)),
            ("line = 10", "servers = 1025, line = -1", (7, 1)),
            ("line = 10", "line = -1, order = \"random\"", (5, 1)),
            ("line = 10", "line = 65537, order = 1", (7, 1)),
            ("line = 10", "order = \"random\", shifts = [1]", (5, 1)),
            ("line = 10", "order = 1", (5, 1)),
            ("line = 10", "order = \"first\"", (0, 0)),
            ("line = 10", "order = \"last\"", (0, 0)),
            ("line = 10", "order = \"priority\"", (0, 0)),
            ("line = 10", "up = { law = \"fixed\", value = 3 }", (3, 1)),
            ("line = 10", "down = { law = \"fixed\", value = 3 }", (3, 1)),
            (
                "line = 10",
                "up = { law = \"fixed\", value = 3 }, down = { law = \"fixed\", value = 3 }",
                (0, 0),
            ),
            (
                "line = 10",
                "up = { law = \"fixed\", value = 3 }, color = 1",
                (3, 1),
            ),
            ("line = 10", "up = 1", (5, 1)),
            ("\"part\"", "\"mill\"", (5, 2)),
        ],
    },
    Changes {
        shows: "shifts are checked one after another",
        text: MILL,
        changes: &[
            ("line = 10", "shifts = 1", (5, 1)),
            ("line = 10", "shifts = [1]", (5, 1)),
            ("line = 10", "shifts = []", (0, 0)),
            ("line = 10", "shifts = [ { servers = 1 } ]", (3, 1)),
            ("line = 10", "shifts = [ { at = 5 } ]", (3, 1)),
            ("line = 10", "shifts = [ { at = 0, servers = 0 } ]", (0, 0)),
            (
                "line = 10",
                "shifts = [ { at = 5, servers = 1, color = 1 } ]",
                (4, 1),
            ),
            (
                "line = 10",
                "shifts = [ { at = 5, servers = 1 }, { at = 5, servers = 2 } ]",
                (5, 1),
            ),
            (
                "line = 10",
                "shifts = [ { at = 5, servers = 1 }, { at = 6, servers = 2 } ]",
                (0, 0),
            ),
            (
                "line = 10",
                "shifts = [ { at = 5, servers = 1 }, { at = 4, servers = 1025 } ]",
                (7, 1),
            ),
            (
                "line = 10",
                "shifts = [ { at = 5, servers = 1 }, { at = 5, servers = 1, color = 1 } ]",
                (4, 1),
            ),
            (
                "line = 10",
                "shifts = [ { at = 5, servers = 1 } ], period = 5",
                (5, 1),
            ),
            (
                "line = 10",
                "shifts = [ { at = 5, servers = 1 } ], period = 6",
                (0, 0),
            ),
            ("line = 10", "period = 1", (0, 0)),
            ("line = 10", "period = 0", (5, 1)),
            (
                "line = 10",
                "shifts = [ { at = 5, servers = 1 } ], period = 5, up = 1",
                (5, 1),
            ),
        ],
    },
    Changes {
        shows: "a class is checked in its order",
        text: MILL,
        changes: &[
            ("\"part\"", "\"a part\"", (5, 2)),
            ("\"part\", ", "\"part\", color = 1, ", (4, 2)),
            ("name = \"part\", ", "", (3, 2)),
            ("first = 1", "first = 70368744177664", (7, 2)),
            ("first = 1", "until = -1", (5, 2)),
            ("first = 1", "times = 3", (5, 2)),
            ("first = 1", "times = [3, 70368744177664, -1]", (7, 2)),
            ("first = 1", "batch = 2", (5, 2)),
            ("count = 3", "count = 0", (5, 2)),
            ("count = 3", "count = 10000000", (7, 2)),
            ("count = 3", "priority = 8", (7, 2)),
            ("count = 3", "due = -1", (5, 2)),
            (ROUTE, "color = 1", (3, 2)),
            (ROUTE, "route = 1", (5, 2)),
            (STEP, "", (5, 2)),
            (STEP, "1", (5, 2)),
        ],
    },
    Changes {
        shows: "a step is checked by its form",
        text: MILL,
        changes: &[
            (
                STEP,
                "{ at = \"mill\", service = { law = \"fixed\", value = 3 } }",
                (0, 0),
            ),
            (
                STEP,
                "{ at = \"mill\", service = { law = \"fixed\", value = 3 }, delay = { law = \"fixed\", value = 3 } }",
                (4, 2),
            ),
            (
                STEP,
                "{ at = \"mill\", service = { law = \"fixed\", value = 3 }, hold = \"mill\" }",
                (4, 2),
            ),
            (
                STEP,
                "{ at = \"mill\", service = { law = \"fixed\", value = 3 }, weights = [1] }",
                (4, 2),
            ),
            (
                STEP,
                "{ at = \"mill\", service = { law = \"fixed\", value = 3 }, patience = 1 }",
                (5, 2),
            ),
            (
                STEP,
                "{ at = \"mill\", service = { law = \"fixed\", value = 3 }, away = 1 }",
                (5, 2),
            ),
            (
                STEP,
                "{ at = \"mill\", service = { law = \"fixed\", value = 3 }, full = [\"out\"] }",
                (5, 2),
            ),
            (
                STEP,
                "{ at = \"mill\", service = { law = \"fixed\", value = 3 }, away = \"out\", full = \"drop\", label = \"x\" }",
                (0, 0),
            ),
            (
                STEP,
                "{ at = \"mill\", service = { law = \"fixed\", value = 3 }, away = \"x\", full = \"x\", label = \"x\" }",
                (0, 0),
            ),
            (
                STEP,
                "{ at = \"mill\", service = { law = \"fixed\", value = 3 }, label = \"out\" }",
                (5, 2),
            ),
            (
                STEP,
                "{ at = \"mill\", service = { law = \"fixed\", value = 3 }, label = \"drop\" }",
                (5, 2),
            ),
            (
                STEP,
                "{ at = \"mill\", service = { law = \"fixed\", value = 3 }, label = \"\" }",
                (5, 2),
            ),
            (
                STEP,
                "{ at = \"mill\", service = { law = \"fixed\", value = 3 }, label = 1 }",
                (5, 2),
            ),
            (STEP, "{ }", (3, 2)),
            (STEP, "{ color = 1 }", (3, 2)),
            (STEP, "{ at = \"mill\" }", (3, 2)),
            (STEP, "{ at = 1 }", (5, 2)),
            (STEP, "{ label = \"out\", free = \"mill\" }", (5, 2)),
            (STEP, "{ label = \"x y\" }", (5, 2)),
            (STEP, "{ hold = \"mill\" }", (0, 0)),
            (STEP, "{ hold = \"mill\", free = \"mill\" }", (4, 2)),
            (STEP, "{ hold = 1 }", (5, 2)),
            (STEP, "{ free = \"mill\" }", (0, 0)),
            (STEP, "{ free = \"mill\", away = \"out\" }", (4, 2)),
            (STEP, "{ delay = 3 }", (5, 2)),
            (
                STEP,
                "{ delay = { law = \"fixed\", value = 3 }, go = [\"out\"] }",
                (4, 2),
            ),
            (STEP, "{ go = [] }", (5, 2)),
            (STEP, "{ go = [1] }", (5, 2)),
            (STEP, "{ go = \"out\" }", (5, 2)),
            (STEP, "{ go = [\"out\"], weights = [1, 1] }", (5, 2)),
            (STEP, "{ go = [\"out\"], weights = [0] }", (5, 2)),
            (
                STEP,
                "{ go = [\"out\", \"drop\"], weights = [0, 1] }",
                (0, 0),
            ),
            (
                STEP,
                "{ label = \"a\", go = [\"a\"] }, { label = \"a\", go = [\"a\"] }",
                (5, 2),
            ),
            (
                STEP,
                "{ label = \"a\", go = [\"b\"] }, { label = \"b\", go = [\"a\"] }",
                (0, 0),
            ),
        ],
    },
    Changes {
        shows: "links are checked last",
        text: MILL,
        changes: &[
            (STEP, "{ hold = \"part\" }", (6, 2)),
            (STEP, "{ hold = \"press\" }", (6, 2)),
            (STEP, "{ free = \"part\" }", (6, 2)),
            (STEP, "{ hold = \"mill\", away = \"x\" }", (6, 2)),
            (STEP, "{ hold = \"mill\", full = \"x y\" }", (6, 2)),
            (STEP, "{ hold = \"mill\", away = \"mill\" }", (6, 2)),
            (STEP, "{ go = [\"out\", \"x\"] }", (6, 2)),
            (
                STEP,
                "{ hold = \"press\" }, { hold = \"mill\", color = 1 }",
                (4, 2),
            ),
            (STEP, "{ hold = \"out\" }", (6, 2)),
        ],
    },
    Changes {
        shows: "links of a shop with a bit of all are checked",
        text: CLINIC,
        changes: &[
            ("{ hold = \"room\",", "{ hold = \"calm\",", (6, 3)),
            ("[ { go = [\"out\"] } ]", "[ { go = [\"again\"] } ]", (6, 4)),
            ("{ free = \"room\" }", "{ free = \"hall\" }", (6, 3)),
            ("\"urgent\"", "\"room\"", (5, 4)),
            ("\"urgent\"", "\"calm\"", (5, 4)),
            ("\"urgent\"", "\"again\"", (0, 0)),
        ],
    },
    Changes {
        shows: "a refusal of a later class comes before a bad link",
        text: CLINIC,
        changes: &[(
            "{ free = \"room\" },\n  { label = \"choose\", go = [\"again\", \"out\", \"drop\"], weights = [1, 1, 0] },\n]\n\n[[class]]\nname = \"urgent\"\ntimes = [9]",
            "{ free = \"hall\" },\n  { label = \"choose\", go = [\"again\", \"out\", \"drop\"], weights = [1, 1, 0] },\n]\n\n[[class]]\nname = \"urgent\"\ntimes = [-9]",
            (5, 4),
        )],
    },
    Changes {
        shows: "laws are checked by their name",
        text: MILL,
        changes: &[
            (STEP, "{ delay = {  } }", (3, 2)),
            (STEP, "{ delay = { law = 1 } }", (5, 2)),
            (STEP, "{ delay = { law = \"normal\" } }", (5, 2)),
            (STEP, "{ delay = { law = \"fixed\" } }", (3, 2)),
            (
                STEP,
                "{ delay = { law = \"fixed\", value = 3, cap = 1 } }",
                (4, 2),
            ),
            (
                STEP,
                "{ delay = { law = \"uniform\", low = 2, high = 1, cap = 1 } }",
                (5, 2),
            ),
            (
                STEP,
                "{ delay = { law = \"uniform\", low = 0, high = 4294967296 } }",
                (7, 2),
            ),
            (STEP, "{ delay = { law = \"geometric\", p = 1 } }", (3, 2)),
            (
                STEP,
                "{ delay = { law = \"geometric\", p = 1, cap = 1, unit = 0 } }",
                (5, 2),
            ),
            (
                STEP,
                "{ delay = { law = \"geometric\", p = 1, cap = 1, unit = 16777217 } }",
                (7, 2),
            ),
            (
                STEP,
                "{ delay = { law = \"geometric\", p = 1, cap = 1, unit = 2, low = 1 } }",
                (4, 2),
            ),
            (STEP, "{ delay = { law = \"table\" } }", (3, 2)),
            (STEP, "{ delay = { law = \"table\", values = 1 } }", (5, 2)),
            (STEP, "{ delay = { law = \"table\", values = [] } }", (5, 2)),
            (
                STEP,
                "{ delay = { law = \"table\", values = [1, -1] } }",
                (5, 2),
            ),
            (
                STEP,
                "{ delay = { law = \"table\", values = [1, 2], weights = [1] } }",
                (5, 2),
            ),
            (
                STEP,
                "{ delay = { law = \"table\", values = [1, 2], weights = [0, 0] } }",
                (5, 2),
            ),
            (
                STEP,
                "{ delay = { law = \"table\", values = [2, 1], weights = [0, 65536] } }",
                (7, 2),
            ),
            (
                STEP,
                "{ delay = { law = \"table\", values = [2, 1], weights = [0, 65535] } }",
                (0, 0),
            ),
            (
                STEP,
                "{ delay = { law = \"table\", values = [2, 2] } }",
                (0, 0),
            ),
            (
                STEP,
                "{ delay = { law = \"table\", values = [1], bounds = [0, 1] } }",
                (4, 2),
            ),
            (
                STEP,
                "{ delay = { law = \"steps\", bounds = [0] } }",
                (5, 2),
            ),
            (
                STEP,
                "{ delay = { law = \"steps\", bounds = [0, 0] } }",
                (5, 2),
            ),
            (
                STEP,
                "{ delay = { law = \"steps\", bounds = [1, 0] } }",
                (5, 2),
            ),
            (
                STEP,
                "{ delay = { law = \"steps\", bounds = [0, 1] } }",
                (0, 0),
            ),
            (
                STEP,
                "{ delay = { law = \"steps\", bounds = [0, 4294967296] } }",
                (0, 0),
            ),
            (
                STEP,
                "{ delay = { law = \"steps\", bounds = [0, 4294967297] } }",
                (7, 2),
            ),
            (
                STEP,
                "{ delay = { law = \"steps\", bounds = [0, 4294967297, 1] } }",
                (7, 2),
            ),
            (
                STEP,
                "{ delay = { law = \"steps\", bounds = [1, 0, 4294967297] } }",
                (5, 2),
            ),
            (
                STEP,
                "{ delay = { law = \"steps\", bounds = [0, 4294967297], weights = 1 } }",
                (7, 2),
            ),
            (
                STEP,
                "{ delay = { law = \"steps\", bounds = [0, 1, 2], weights = [1] } }",
                (5, 2),
            ),
            (
                STEP,
                "{ delay = { law = \"steps\", bounds = [0, 1, 2], weights = [0, 0] } }",
                (5, 2),
            ),
            (
                STEP,
                "{ delay = { law = \"steps\", bounds = [0, 1, 2], weights = [0, 1], unit = 1 } }",
                (4, 2),
            ),
        ],
    },
];

/// Bytes that are no text.
const NO_TEXT: &[u8] = b"\xff";

#[test]
fn bytes_that_are_no_text_are_not_toml(rt: HostRuntime) {
    assert!(rt; answer_of(rt.alloc(), NO_TEXT) == Some((2, 0)));
}
