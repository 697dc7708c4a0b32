//! Texts of circuits, and what they are refused for.
use super::{Changes, answer_of};
use std::alloc::Global;
use std::test::Fail;
use test_texts::{PULSE, circuit};

pub(super) const ALL: [Changes; 3] = [
    Changes {
        shows: "the lists of a circuit are checked first",
        text: "format = 2\nmodel = \"circuit\"\nend = 5\n#",
        changes: &[
            ("#", "", (0, 0)),
            ("#", "gate = []\n", (0, 0)),
            ("#", "gate = 3\n", (5, 0)),
            ("#", "gate = {}\n", (5, 0)),
            ("#", "gate = [3]\n", (5, 1)),
            ("#", "gate = [{}, 3]\n", (3, 1)),
        ],
    },
    Changes {
        shows: "the top of a circuit is checked first",
        text: PULSE,
        changes: &[
            ("format = 2", "format = 1", (5, 0)),
            ("format = 2", "format = 3", (5, 0)),
            ("end = 5\n", "end = 5\nobject = []\n", (4, 0)),
            ("\"circuit\"", "\"phold\"", (4, 0)),
            ("\"circuit\"", "\"network\"", (4, 0)),
        ],
    },
    Changes {
        shows: "gates are checked in their order",
        text: PULSE,
        changes: &[
            ("name = \"n\"", "name = \"a\"", (5, 2)),
            ("name = \"n\"", "name = \"a b\"", (5, 2)),
            ("kind = \"not\"", "kind = \"source\"", (5, 2)),
            ("kind = \"not\"\n", "", (3, 2)),
            ("flips = [2]\n", "", (0, 0)),
            ("flips = [2]", "flips = []", (0, 0)),
            ("flips = [2]", "flips = 2", (5, 1)),
            ("flips = [2]", "flips = [2, 70368744177664]", (7, 1)),
            ("flips = [2]", "flips = [70368744177663]", (0, 0)),
            ("flips = [2]", "flips = [2]\nfrom = []", (4, 1)),
            ("flips = [2]", "flips = [2]\ndelay = 1", (4, 1)),
            ("flips = [2]", "flips = [2]\nprobe = 0\ncolor = 1", (5, 1)),
            ("flips = [2]", "flips = [2]\nprobe = false", (0, 0)),
            ("delay = 0", "delay = 1099511627776", (0, 0)),
            ("delay = 0", "delay = 1099511627777", (7, 3)),
            ("delay = 0", "delay = -1", (5, 3)),
            ("delay = 0", "flips = []", (4, 3)),
            ("from = [\"a\"]\n", "", (3, 2)),
            ("from = [\"a\"]", "from = []", (5, 2)),
            ("from = [\"a\"]", "from = \"a\"", (5, 2)),
            ("from = [\"a\"]", "from = [1, 2]", (5, 2)),
            ("from = [\"a\"]", "from = [\"a\", \"a\"]", (5, 2)),
            ("from = [\"a\"]", "from = [\"n\"]", (0, 0)),
            ("from = [\"a\"]", "from = [\"b\"]", (6, 2)),
            ("from = [\"a\"]", "from = [\"b\"]\ncolor = 1", (4, 2)),
            ("from = [\"a\", \"n\"]", "from = [\"a\", \"b\"]", (6, 3)),
            ("from = [\"a\", \"n\"]", "from = []", (5, 3)),
        ],
    },
];

/// Kinds of gates, and how many pins each has at least and at most.
const KINDS: [(&str, usize, usize); 8] = [
    ("buf", 1, 1),
    ("not", 1, 1),
    ("and", 1, 8),
    ("or", 1, 8),
    ("xor", 1, 8),
    ("nand", 1, 8),
    ("nor", 1, 8),
    ("dff", 2, 2),
];

/// What a circuit is refused for in which a gate of this kind has so many pins.
fn answer_of_pins(alloc: Global, kind: &str, pins: usize) -> Result<Option<(u8, u32)>, Fail> {
    let from = "\"a\", ".repeat(alloc, pins)?;
    let gates = format!(in alloc;
        "gate = [{{ name = \"a\", kind = \"input\" }}, {{ name = \"b\", kind = \"{kind}\", from = [{from}] }}]\n"
    )?;
    let text = circuit(alloc, "end = 5", gates.as_str())?;
    Ok(answer_of(alloc, text.as_bytes()))
}

#[test]
fn each_kind_has_its_number_of_pins(rt: HostRuntime) -> Result<(), Fail> {
    for (kind, least, most) in &KINDS {
        for pins in 0..10usize {
            let is_right = *least <= pins && pins <= *most;
            let wanted = if is_right { (0, 0) } else { (5, 2) };
            let answer = answer_of_pins(rt.alloc(), kind, pins)?;
            assert!(rt; answer == Some(wanted), "{kind} of {pins}");
        }
    }
    Ok(())
}
