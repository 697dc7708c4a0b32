//! Texts of networks, and what they are refused for.
use super::{Changes, ChangesByFormat};
use test_texts::{NOTHING, ROUTER_LOOP, SHOP, TWO_JOBS};

const END: &str = "end = 20\n";

const NEXT: &str = "next = [\"r1\"]";

const COUNT: &str = "count = 3\n";

const LINE: &str = "line = 10\n";

const SINK: &str = "kind = \"sink\"\n";

const TIME: &str = "time = 4\n";

pub(super) const ALL: [Changes; 4] = [
    Changes {
        shows: "the top of a network is checked first",
        text: NOTHING,
        changes: &[
            (END, "end = 20\nend = 20\n", (2, 0)),
            (END, "end = 20.0\n", (5, 0)),
            (END, "end = -1\n", (5, 0)),
            (END, "end = 70368744177664\n", (7, 0)),
            (END, "end = 20\nphold = {}\n", (4, 0)),
            (END, "end = 20\nobject = 1\njob = 1\n", (5, 0)),
            (END, "end = 20\nobject = [3]\njob = 1\n", (5, 0)),
            (END, "end = 20\nobject = [3]\n", (5, 1)),
            (END, "end = 20\njob = [3]\n", (5, 1)),
            (END, "end = 20\njob = [{ time = 0 }]\n", (3, 1)),
        ],
    },
    Changes {
        shows: "objects are checked in their order",
        text: SHOP,
        changes: &[
            ("name = \"s\"\n", "name = \"s\"\ncolor = 1\n", (4, 2)),
            ("name = \"s\"\n", "color = 1\n", (3, 2)),
            ("kind = \"station\"\n", "color = 1\n", (3, 2)),
            ("\"station\"\n", "\"gate\"\ncolor = 1\n", (5, 2)),
            ("servers = 1\n", "servers = 0\n", (5, 2)),
            ("servers = 1\n", "servers = 1025\n", (7, 2)),
            ("line = 10\n", "line = 10\nstrict = 1\n", (5, 2)),
            ("line = 10\n", "line = 65537\nstrict = 1\n", (7, 2)),
            ("name = \"out\"\n", "name = \"s\"\n", (5, 3)),
            ("name = \"in\"\n", "name = \"abcdefghijklmno_\"\n", (0, 0)),
            ("name = \"in\"\n", "name = \"abcdefghijklmno_7\"\n", (5, 1)),
            ("name = \"in\"\n", "name = \"\"\n", (5, 1)),
            ("name = \"in\"\n", "name = \"the door\"\n", (5, 1)),
            ("kind = \"sink\"\n", "kind = \"sink\"\ndue = -1\n", (5, 3)),
        ],
    },
    Changes {
        shows: "links and jobs are checked after the objects",
        text: SHOP,
        changes: &[
            ("next = \"s\"\n", "next = \"x\"\n", (6, 1)),
            ("next = \"s\"\n", "next = \"in\"\n", (6, 1)),
            (
                "next = \"s\"\n\n[[object]]\n",
                "next = \"x\"\n\n[[object]]\ncolor = 1\n",
                (4, 2),
            ),
            (
                SINK,
                "kind = \"sink\"\n[[job]]\ntime = 1\nat = \"in\"\n",
                (6, 4),
            ),
            (
                SINK,
                "kind = \"sink\"\n[[job]]\ntime = 1\nat = \"s\"\n",
                (0, 0),
            ),
            (
                SINK,
                "kind = \"sink\"\n[[job]]\ntime = 1\nat = \"in\"\ncolor = 1\n",
                (4, 4),
            ),
            (
                SINK,
                "kind = \"sink\"\n[[job]]\nat = \"in\"\ncolor = 1\n",
                (3, 4),
            ),
        ],
    },
    Changes {
        shows: "a router has a weight for each way",
        text: ROUTER_LOOP,
        changes: &[
            (NEXT, "next = []", (5, 1)),
            (NEXT, "next = \"r1\"", (5, 1)),
            (NEXT, "next = [1]", (5, 1)),
            (NEXT, "next = [\"r1\"]\nweights = [1, 2]", (5, 1)),
            (NEXT, "next = [\"r1\"]\nweights = [1, 65536]", (5, 1)),
            (NEXT, "next = [\"r1\"]\nweights = [65536]", (7, 1)),
            (NEXT, "next = [\"r1\"]\nweights = [65535]", (0, 0)),
            (NEXT, "next = [\"r1\"]\nweights = [0]", (5, 1)),
            (NEXT, "next = [\"r1\", \"x\"]\nweights = [0, 1]", (6, 1)),
        ],
    },
];

pub(super) const BY_FORMAT: [ChangesByFormat; 2] = [
    ChangesByFormat {
        shows: "the second format adds fields of objects",
        text: SHOP,
        changes: &[
            (COUNT, "count = 3\nrank = 0\n", (4, 1), (0, 0)),
            (COUNT, "count = 3\nrank = 255\n", (4, 1), (0, 0)),
            (COUNT, "count = 3\nrank = 256\n", (4, 1), (7, 1)),
            (COUNT, "count = 3\nrank = -1\n", (4, 1), (5, 1)),
            (COUNT, "count = 0\nrank = 256\n", (5, 1), (5, 1)),
            (LINE, "rank = 256\nquiet = 1\n", (4, 2), (7, 2)),
            (LINE, "quiet = 1\nrank = \"first\"\n", (4, 2), (5, 2)),
            (LINE, "quiet = true\ntrace = true\n", (4, 2), (0, 0)),
            (LINE, "quiet = true\ntrace = 1\n", (4, 2), (5, 2)),
            (LINE, "trace = false\ncolor = 1\n", (4, 2), (4, 2)),
            (SINK, "kind = \"sink\"\nquiet = true\n", (4, 3), (0, 0)),
            (SINK, "kind = \"sink\"\ntrace = false\n", (4, 3), (4, 3)),
            (
                SINK,
                "kind = \"sink\"\ndue = -1\nrank = 256\n",
                (5, 3),
                (5, 3),
            ),
        ],
    },
    ChangesByFormat {
        shows: "the second format adds a rank of jobs",
        text: TWO_JOBS,
        changes: &[
            (TIME, "time = 4\nrank = 1\n", (4, 3), (0, 0)),
            (TIME, "time = 4\nrank = 256\n", (4, 3), (7, 3)),
            (TIME, "time = 4\nrank = 1.0\n", (4, 3), (5, 3)),
            (TIME, "rank = 256\n", (3, 3), (3, 3)),
            (TIME, "time = 4\nquiet = true\n", (4, 3), (4, 3)),
        ],
    },
];
