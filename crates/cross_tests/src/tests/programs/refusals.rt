//! Words and models that are refused, and words that can't be read.
use super::ended_by;
use btb_program::run_program;
use model_program::Open;
use sim_io::MemSource;
use std::alloc::{AllocGlobal, Global};
use std::io::ErrorKind;
use std::process::Abort;
use std::test::Fail;
use std::thread::Threads;
use test_texts::wanted::TIE_TEXT;
use test_texts::{DRAWN, ROUTER_LOOP, SHOP, TIE, circuit, sink_of, source_of, text_of, words_of};

/// Words that are refused, and what is noted of them.
const REFUSED_WORDS: [(&str, &str); 27] = [
    ("", "no command"),
    ("go", "unknown command"),
    ("run --nodes=2", "unknown option"),
    ("totals --cycles", "unknown option"),
    ("run --ahead 1 --ahead 2", "repeated option"),
    ("one --cycles --cycles", "repeated option"),
    ("run --nodes", "missing value"),
    ("demo", "missing value"),
    ("run --nodes 0", "bad value"),
    ("run --nodes 65", "bad value"),
    ("run --nodes 02", "bad value"),
    ("run --workers 0", "bad value"),
    ("run --workers 65", "bad value"),
    ("run --workers 2 --workers 2", "repeated option"),
    ("run --moves", "missing value"),
    ("run --moves other", "bad value"),
    ("run --moves turn --moves turn", "repeated option"),
    ("save --moves", "bad value"),
    ("save", "missing value"),
    ("save 10000000", "bad value"),
    ("save 1 2", "extra word"),
    ("resume --cycles", "unknown option"),
    ("resume x", "extra word"),
    ("demo 257", "bad value"),
    ("run x", "extra word"),
    ("one x", "extra word"),
    ("demo 1 2", "extra word"),
];

#[test]
fn refused_words_read_nothing(rt: HostRuntime) -> Result<(), Fail> {
    let alloc = rt.alloc();
    for (words, fault) in &REFUSED_WORDS {
        let source = source_of(alloc, TIE.as_bytes(), &[1])?;
        let run = ended_by(&rt, words, source, sink_of(alloc, &[1], &[])?, &Open)?;
        let line = ["words: ", fault, "\n"].concat(alloc)?;
        run.expect(2, "", line.as_str(), words)?;
    }
    Ok(())
}

/// With what was read of its words a program has this status, text and note, over streams that fail at these calls.
fn assert_program<R: Abort + AllocGlobal + Threads + Sync>(
    rt: &R,
    words: Result<Vec<String>, ErrorKind>,
    fails: &[u64],
    status: u8,
    text: &str,
    line: &str,
) -> Result<(), Fail> {
    let alloc = rt.alloc();
    let mut source = source_of(alloc, TIE.as_bytes(), fails)?;
    let mut out = sink_of(alloc, fails, &[])?;
    let mut notes = sink_of(alloc, &[], &[])?;
    let ended = run_program(rt, words, &mut source, &mut out, &mut notes, &Open);
    assert!(rt; ended == status);
    assert!(rt; text_of(alloc, &out)?.as_str() == text);
    assert!(rt; text_of(alloc, &notes)?.as_str() == line);
    Ok(())
}

#[test]
fn a_word_that_is_no_text_is_refused_before_anything_is_read(rt: HostRuntime) -> Result<(), Fail> {
    let run = words_of(rt.alloc(), "run")?;
    assert_program(&rt, Ok(run), &[], 0, TIE_TEXT, "")?;
    let no_text = Err(ErrorKind::InvalidData);
    assert_program(&rt, no_text, &[1], 2, "", "words: bad value\n")?;
    let no_memory = Err(ErrorKind::OutOfMemory);
    assert_program(&rt, no_memory, &[1], 6, "", "out of memory\n")
}

/// These bytes are no model, and this is noted of them.
fn assert_no_model<R: Abort + AllocGlobal + Threads + Sync>(
    rt: &R,
    model: &[u8],
    fault: &str,
) -> Result<(), Fail> {
    let alloc = rt.alloc();
    let line = ["model: ", fault, "\n"].concat(alloc)?;
    for words in ["one", "run", "totals", "save 1"] {
        let source = source_of(alloc, model, &[])?;
        let run = ended_by(rt, words, source, sink_of(alloc, &[1], &[])?, &Open)?;
        run.expect(3, "", line.as_str(), words)?;
    }
    Ok(())
}

/// An input that feeds nine gates.
fn nine_fed(alloc: Global) -> Result<String, Fail> {
    let mut gates = String::from_str(alloc, "[[gate]]\nname = \"a\"\nkind = \"input\"\n")?;
    for number in 0..9u32 {
        let gate = format!(in alloc;
            "[[gate]]\nname = \"b{number}\"\nkind = \"buf\"\nfrom = [\"a\"]\n"
        )?;
        gates.push_str(gate.as_str())?;
    }
    Ok(circuit(alloc, "end = 5", gates.as_str())?)
}

#[test]
fn a_refused_model_is_told_by_code_name_and_item(rt: HostRuntime) -> Result<(), Fail> {
    assert_no_model(&rt, b"", "3 Missing item 0")?;
    assert_no_model(&rt, b"\xFF", "2 NotToml item 0")?;
    let fed = nine_fed(rt.alloc())?;
    assert_no_model(&rt, fed.as_bytes(), "7 Limit item 1")
}

#[test]
fn a_text_of_spaces_is_too_long_or_has_no_format(rt: HostRuntime) -> Result<(), Fail> {
    let alloc = rt.alloc();
    for (length, line) in [
        (1_048_577, "model: 1 TooLong item 0\n"),
        (1_048_576, "model: 3 Missing item 0\n"),
    ] {
        let spaces = vec![in alloc; b' '; length]?;
        let source = MemSource::new(spaces, Vec::new(alloc), 65_536);
        let run = ended_by(&rt, "run", source, sink_of(alloc, &[1], &[])?, &Open)?;
        run.expect(3, "", line, "spaces")?;
    }
    Ok(())
}

const SERVERS: &str = "servers = 1";

const END: &str = "end = 20";

const NEXT: &str = "next = [\"r1\"]";

const LOW: &str = "low = 1, high = 10";

/// Models with what is changed of each, what it becomes, and what is noted of the changed one.
const CHANGES: [(&str, &str, &str, &str); 18] = [
    (
        SHOP,
        "[[object]]\nname = \"in\"",
        "[[obj",
        "2 NotToml item 0",
    ),
    (SHOP, SERVERS, "servers = 1\ncolor = 1", "4 Unknown item 2"),
    (SHOP, SERVERS, "servers = 0", "5 BadValue item 2"),
    (SHOP, "next = \"s\"", "next = \"x\"", "6 BadLink item 1"),
    (SHOP, END, "end = 70368744177664", "7 Limit item 0"),
    (SHOP, END, "", "3 Missing item 0"),
    (SHOP, END, "end = 20\nend = 20", "2 NotToml item 0"),
    (SHOP, END, "end = 20.0", "5 BadValue item 0"),
    (SHOP, END, "end = -1", "5 BadValue item 0"),
    (SHOP, "name = \"out\"", "name = \"s\"", "5 BadValue item 3"),
    (
        SHOP,
        "kind = \"sink\"\n",
        "kind = \"sink\"\n[[job]]\ntime = 1\nat = \"in\"\n",
        "6 BadLink item 4",
    ),
    (ROUTER_LOOP, NEXT, "next = []", "5 BadValue item 1"),
    (
        ROUTER_LOOP,
        NEXT,
        "next = [\"r1\"]\nweights = [1, 2]",
        "5 BadValue item 1",
    ),
    (
        ROUTER_LOOP,
        NEXT,
        "next = [\"r1\"]\nweights = [0]",
        "5 BadValue item 1",
    ),
    (DRAWN, LOW, "low = 5, high = 4", "5 BadValue item 0"),
    (DRAWN, LOW, "low = 1, high = 4294967297", "7 Limit item 0"),
    (DRAWN, "objects = 1", "objects = 65537", "7 Limit item 0"),
    (DRAWN, "at = 0", "at = 1", "6 BadLink item 1"),
];

#[test]
fn changed_models_are_refused(rt: HostRuntime) -> Result<(), Fail> {
    for (model, old, new, fault) in &CHANGES {
        let model = model.replace(rt.alloc(), old, new)?;
        assert_no_model(&rt, model.as_bytes(), fault)?;
    }
    Ok(())
}
