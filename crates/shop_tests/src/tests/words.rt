//! Words and models that are refused, and what is noted of them.
use super::models::MILL;
use super::told_by;
use std::test::Fail;

/// No model.
const OTHER: &str = "format = 3";

/// Words, an input, the status with which a run of them ends, and what is noted.
const REFUSED: [(&str, &str, u8, &str); 20] = [
    ("", MILL, 2, "words: no command\n"),
    ("demo 1", MILL, 2, "words: unknown command\n"),
    ("run --from", MILL, 2, "words: unknown option\n"),
    ("totals --cycles", MILL, 2, "words: unknown option\n"),
    ("totals replicate", MILL, 2, "words: extra word\n"),
    ("replicate", MILL, 2, "words: missing value\n"),
    ("replicate 0", MILL, 2, "words: bad value\n"),
    ("replicate 100001", MILL, 2, "words: bad value\n"),
    ("replicate 02", MILL, 2, "words: bad value\n"),
    ("replicate 2 --from 5", MILL, 2, "words: unknown option\n"),
    (
        "replicate 2 --first 9223372036854775808",
        MILL,
        2,
        "words: bad value\n",
    ),
    ("replicate 2 --workers 0", MILL, 2, "words: bad value\n"),
    ("replicate 2 --workers 65", MILL, 2, "words: bad value\n"),
    ("replicate 2 3", MILL, 2, "words: extra word\n"),
    ("replicated 2", MILL, 2, "words: unknown command\n"),
    ("one", OTHER, 3, "model: 5 BadValue item 0\n"),
    ("run", OTHER, 3, "model: 5 BadValue item 0\n"),
    ("totals", OTHER, 3, "model: 5 BadValue item 0\n"),
    ("save 1", OTHER, 3, "model: 5 BadValue item 0\n"),
    ("replicate 1", OTHER, 3, "model: 5 BadValue item 0\n"),
];

#[test]
fn refused_words_and_models_are_noted(rt: HostRuntime) -> Result<(), Fail> {
    for (words, input, status, notes) in &REFUSED {
        told_by(&rt, words, input)?.expect(*status, "", notes, words)?;
    }
    Ok(())
}

/// The only step of the mill's parts.
const STEP: &str = "{ at = \"mill\", service = { law = \"fixed\", value = 3 } }";

/// What of the mill's text is changed, what it becomes, and what is noted of the changed one.
const CHANGES: [(&str, &str, &str); 21] = [
    ("format = 1", "format = 2", "model: 5 BadValue item 0\n"),
    (
        "end = 20",
        "end = 20\nfrom = 70368744177664",
        "model: 7 Limit item 0\n",
    ),
    (
        "end = 20",
        "end = 20\ncolor = 1",
        "model: 4 Unknown item 0\n",
    ),
    ("line = 10", "servers = 1025", "model: 7 Limit item 1\n"),
    (
        "line = 10",
        "up = { law = \"fixed\", value = 3 }",
        "model: 3 Missing item 1\n",
    ),
    (
        "line = 10",
        "shifts = [ { at = 5, servers = 1 }, { at = 5, servers = 2 } ]",
        "model: 5 BadValue item 1\n",
    ),
    (
        "line = 10",
        "shifts = [ { at = 5, servers = 1 } ], period = 5",
        "model: 5 BadValue item 1\n",
    ),
    ("\"part\"", "\"mill\"", "model: 5 BadValue item 2\n"),
    ("count = 3", "count = 10000000", "model: 7 Limit item 2\n"),
    ("count = 3", "priority = 8", "model: 7 Limit item 2\n"),
    (STEP, "", "model: 5 BadValue item 2\n"),
    (STEP, "{ }", "model: 3 Missing item 2\n"),
    (STEP, "{ at = \"mill\" }", "model: 3 Missing item 2\n"),
    (
        STEP,
        "{ at = \"mill\", service = { law = \"fixed\", value = 3 }, delay = { law = \"fixed\", value = 3 } }",
        "model: 4 Unknown item 2\n",
    ),
    (
        STEP,
        "{ label = \"out\", free = \"mill\" }",
        "model: 5 BadValue item 2\n",
    ),
    (STEP, "{ hold = \"part\" }", "model: 6 BadLink item 2\n"),
    (
        STEP,
        "{ hold = \"mill\", away = \"x\" }",
        "model: 6 BadLink item 2\n",
    ),
    (
        STEP,
        "{ delay = { law = \"table\", values = [1, 2], weights = [1] } }",
        "model: 5 BadValue item 2\n",
    ),
    (
        STEP,
        "{ delay = { law = \"steps\", bounds = [0, 0] } }",
        "model: 5 BadValue item 2\n",
    ),
    (
        STEP,
        "{ delay = { law = \"steps\", bounds = [0, 4294967297] } }",
        "model: 7 Limit item 2\n",
    ),
    (
        STEP,
        "{ delay = { law = \"geometric\", p = 1, cap = 1, unit = 16777217 } }",
        "model: 7 Limit item 2\n",
    ),
];

#[test]
fn changed_models_are_refused(rt: HostRuntime) -> Result<(), Fail> {
    for (old, new, notes) in &CHANGES {
        let model = MILL.replace(rt.alloc(), old, new)?;
        told_by(&rt, "run", model.as_str())?.expect(3, "", notes, new)?;
    }
    Ok(())
}
