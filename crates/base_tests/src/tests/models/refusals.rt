//! What texts are refused for at the top, and texts of PHOLD.
use super::{Changes, ChangesByFormat};
use test_texts::{DRAWN, TIE};

/// Both initial events of `TIE`.
const BOTH: &str = "{ time = 0, at = 1 }, { time = 5, at = 0 }";

/// Their list to its end.
const LIST: &str = "{ time = 0, at = 1 }, { time = 5, at = 0 } ]\n";

/// The delays of `DRAWN`.
const LOW: &str = "low = 1, high = 10";

pub(super) const ALL: [Changes; 4] = [
    Changes {
        shows: "the first check that fails is told",
        text: "#",
        changes: &[
            ("#", "", (3, 0)),
            (
                "#",
                "format = 1\nmodel = \"network\"\nend = 20\n\n[[obj",
                (2, 0),
            ),
            ("#", "end = 9223372036854775808", (2, 0)),
            ("#", "end = 1\nend = 1", (2, 0)),
            ("#", "format = 2\n", (3, 0)),
            ("#", "format = 0\n", (5, 0)),
            ("#", "format = 3\n", (5, 0)),
            ("#", "format = 1.0\n", (5, 0)),
            ("#", "format = -1\n", (5, 0)),
            ("#", "format = 1\nend = 3", (3, 0)),
            ("#", "format = 1\nmodel = \"ring\"\nend = 3", (5, 0)),
            (
                "#",
                "format = 1\nmodel = \"phold\"\nend = 70368744177664\ncolor = 1",
                (7, 0),
            ),
            (
                "#",
                "format = 1\nmodel = \"phold\"\nend = 70368744177663\ncolor = 1",
                (4, 0),
            ),
            (
                "#",
                "format = 1\nmodel = \"phold\"\nend = 70368744177663\nseed = -1",
                (5, 0),
            ),
            (
                "#",
                "format = 1\nmodel = \"phold\"\nend = 0\nlimit = 0",
                (5, 0),
            ),
            (
                "#",
                "format = 1\nmodel = \"phold\"\nend = 0\nlimit = 1000000001",
                (7, 0),
            ),
            (
                "#",
                "format = 1\nmodel = \"phold\"\nend = 0\nlimit = 1000000000",
                (3, 0),
            ),
            (
                "#",
                "format = 1\nmodel = \"phold\"\nend = 0\nphold = 3",
                (5, 0),
            ),
        ],
    },
    Changes {
        shows: "a body is checked in its order",
        text: "format = 1\nmodel = \"phold\"\nend = 9\n[phold]\n#",
        changes: &[
            (
                "#",
                "objects = 0\ndelay = { law = \"fixed\", value = 0 }\nto = \"next\"",
                (0, 0),
            ),
            (
                "#",
                "objects = 65536\ndelay = { law = \"geometric\", p = 4294967295, cap = 65536 }\nto = \"next\"",
                (0, 0),
            ),
            ("#", "objects = 65537\n", (7, 0)),
            ("#", "objects = 1\ncolor = 1\n", (3, 0)),
            (
                "#",
                "objects = 1\ndelay = { law = \"fixed\", value = 1099511627777, color = 1 }",
                (7, 0),
            ),
            (
                "#",
                "objects = 1\ndelay = { law = \"fixed\", value = 1, color = 1 }",
                (4, 0),
            ),
            (
                "#",
                "objects = 1\ndelay = { law = \"exponential\" }",
                (5, 0),
            ),
            (
                "#",
                "objects = 1\ndelay = { law = \"uniform\", low = 2, high = 1, color = 1 }",
                (5, 0),
            ),
            (
                "#",
                "objects = 1\ndelay = { law = \"uniform\", low = 0, high = 4294967296 }\nto = 1",
                (7, 0),
            ),
            (
                "#",
                "objects = 1\ndelay = { law = \"uniform\", low = 1, high = 4294967296 }\nto = 1",
                (5, 0),
            ),
            (
                "#",
                "objects = 1\ndelay = { law = \"geometric\", p = 0, cap = 1 }",
                (5, 0),
            ),
            (
                "#",
                "objects = 1\ndelay = { law = \"geometric\", p = 1, cap = 65537 }",
                (7, 0),
            ),
            (
                "#",
                "objects = 1\ndelay = { law = \"fixed\", value = 1 }\nto = \"next\"\neach = 5",
                (7, 0),
            ),
            (
                "#",
                "objects = 1\ndelay = { law = \"fixed\", value = 1 }\nto = \"next\"\nstart = {}",
                (5, 0),
            ),
        ],
    },
    Changes {
        shows: "entries are checked one after another",
        text: TIE,
        changes: &[
            (BOTH, "{ time = 70368744177663, at = 2 }", (0, 0)),
            (BOTH, "{ time = 0, at = 3 }", (6, 1)),
            (BOTH, "{ time = 0, at = 3, color = 1 }", (4, 1)),
            (BOTH, "{ time = 0, at = 65536, color = 1 }", (7, 1)),
            (BOTH, "{ time = 0, at = 2 }, 7, { time = 0 }", (5, 2)),
            (BOTH, "{ time = 0, at = 2 }, { at = 1 }", (3, 2)),
        ],
    },
    Changes {
        shows: "one object is read or refused",
        text: DRAWN,
        changes: &[
            (LOW, LOW, (0, 0)),
            (LOW, "low = 5, high = 4", (5, 0)),
            (LOW, "low = 1, high = 4294967297", (7, 0)),
            ("objects = 1", "objects = 65537", (7, 0)),
            ("at = 0", "at = 1", (6, 1)),
        ],
    },
];

pub(super) const HOPS_BY_FORMAT: ChangesByFormat = ChangesByFormat {
    shows: "the second format adds ranks of hops",
    text: TIE,
    changes: &[
        (LIST, "{ time = 0, at = 2 } ]\nrank = 255\n", (4, 0), (0, 0)),
        (LIST, "{ time = 0, at = 2 } ]\nrank = 256\n", (4, 0), (7, 0)),
        (
            LIST,
            "{ time = 0, at = 3 } ]\nrank = true\n",
            (4, 0),
            (5, 0),
        ),
        (LIST, "{ time = 0, at = 2, rank = 255 } ]\n", (4, 1), (0, 0)),
        (
            LIST,
            "{ time = 0, at = 2 }, { time = 0, at = 2, rank = 256 } ]\n",
            (4, 2),
            (7, 2),
        ),
        (LIST, "{ time = 0, at = 3, rank = 256 } ]\n", (4, 1), (7, 1)),
        (LIST, "{ time = 0, at = 3, rank = 0 } ]\n", (4, 1), (6, 1)),
        (
            LIST,
            "{ time = 0, at = 2, quiet = true } ]\n",
            (4, 1),
            (4, 1),
        ),
    ],
};
