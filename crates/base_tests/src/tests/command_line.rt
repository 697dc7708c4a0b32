//! The words of the command line.
use sim_io::{Moves, Settings, WordFault, read_model_words, read_words};
use sim_spec::Placement;
use std::test::Fail;
use test_texts::words_of;

/// Words, and what they set or are refused for.
type Said = (&'static str, Result<Settings, WordFault>);

/// A run in round placement without lines of cycles.
macro_rules! run {
    ($nodes:literal, $ahead:literal, $workers:expr, $moves:expr) => {
        Ok(Settings::Run {
            nodes: $nodes,
            ahead: $ahead,
            placement: Placement::Round,
            cycles: false,
            workers: $workers,
            moves: $moves,
        })
    };
}

const WORDS: [Said; 71] = [
    ("run", run!(4, 8, None, None)),
    ("run --nodes 1", run!(1, 8, None, None)),
    ("run --ahead 0", run!(4, 0, None, None)),
    ("run --ahead 1024 --nodes 64", run!(64, 1024, None, None)),
    ("run --placement round", run!(4, 8, None, None)),
    (
        "run --cycles --placement block --ahead 7",
        Ok(Settings::Run {
            nodes: 4,
            ahead: 7,
            placement: Placement::Block,
            cycles: true,
            workers: None,
            moves: None,
        }),
    ),
    ("run --workers 1", run!(4, 8, Some(1), None)),
    ("run --nodes 4 --workers 64", run!(4, 8, Some(64), None)),
    ("run --moves load", run!(4, 8, None, Some(Moves::Load))),
    (
        "run --moves turn --placement round",
        run!(4, 8, None, Some(Moves::Turn)),
    ),
    ("one", Ok(Settings::One { cycles: false })),
    ("one --cycles", Ok(Settings::One { cycles: true })),
    ("totals", Ok(Settings::Totals)),
    ("demo 1", Ok(Settings::Demo { n: 1 })),
    ("demo 256", Ok(Settings::Demo { n: 256 })),
    ("save 0", Ok(Settings::Save { c: 0 })),
    ("save 9999999", Ok(Settings::Save { c: 9_999_999 })),
    ("resume", Ok(Settings::Resume)),
    ("", Err(WordFault::NoCommand)),
    ("go", Err(WordFault::UnknownCommand)),
    ("go run", Err(WordFault::UnknownCommand)),
    ("run --nodes=2", Err(WordFault::UnknownOption)),
    ("run - x", Err(WordFault::UnknownOption)),
    ("one x -", Err(WordFault::ExtraWord)),
    ("run run", Err(WordFault::ExtraWord)),
    ("run --cycles --cycles", Err(WordFault::RepeatedOption)),
    ("one --cycles x", Err(WordFault::ExtraWord)),
    ("one --cycles=1", Err(WordFault::UnknownOption)),
    ("one --nodes 4", Err(WordFault::UnknownOption)),
    ("run --nodes", Err(WordFault::MissingValue)),
    ("run --cycles --ahead", Err(WordFault::MissingValue)),
    ("run --nodes 0", Err(WordFault::BadValue)),
    ("run --nodes 65", Err(WordFault::BadValue)),
    ("run --nodes 04", Err(WordFault::BadValue)),
    ("run --nodes +4", Err(WordFault::BadValue)),
    ("run --nodes ", Err(WordFault::BadValue)),
    ("run --nodes --ahead", Err(WordFault::BadValue)),
    ("run --ahead 1025", Err(WordFault::BadValue)),
    ("run --ahead 00000001", Err(WordFault::BadValue)),
    ("run --placement Round", Err(WordFault::BadValue)),
    ("run --nodes 2 --nodes 0", Err(WordFault::RepeatedOption)),
    ("run --nodes 2 3", Err(WordFault::ExtraWord)),
    ("run --workers", Err(WordFault::MissingValue)),
    ("run --workers 0", Err(WordFault::BadValue)),
    ("run --workers 65", Err(WordFault::BadValue)),
    (
        "run --workers 2 --workers 2",
        Err(WordFault::RepeatedOption),
    ),
    ("one --workers 2", Err(WordFault::UnknownOption)),
    ("run --moves", Err(WordFault::MissingValue)),
    ("run --moves Load", Err(WordFault::BadValue)),
    ("run --moves round", Err(WordFault::BadValue)),
    (
        "run --moves load --moves turn",
        Err(WordFault::RepeatedOption),
    ),
    ("run --moves=load", Err(WordFault::UnknownOption)),
    ("one --moves load", Err(WordFault::UnknownOption)),
    ("totals --cycles", Err(WordFault::UnknownOption)),
    ("totals totals", Err(WordFault::ExtraWord)),
    ("demo", Err(WordFault::MissingValue)),
    ("demo 0", Err(WordFault::BadValue)),
    ("demo 257", Err(WordFault::BadValue)),
    ("demo -1", Err(WordFault::BadValue)),
    ("demo 01 2", Err(WordFault::BadValue)),
    ("demo 1 2", Err(WordFault::ExtraWord)),
    ("demo 1 --cycles", Err(WordFault::ExtraWord)),
    ("save", Err(WordFault::MissingValue)),
    ("save 10000000", Err(WordFault::BadValue)),
    ("save -1", Err(WordFault::BadValue)),
    ("save x y", Err(WordFault::BadValue)),
    ("save 1 2", Err(WordFault::ExtraWord)),
    ("save 1 --nodes", Err(WordFault::ExtraWord)),
    ("resume --cycles", Err(WordFault::UnknownOption)),
    ("resume 1", Err(WordFault::ExtraWord)),
    ("resume resume -", Err(WordFault::ExtraWord)),
];

/// To a program without demos `demo` is no command.
const MODEL_WORDS: [Said; 6] = [
    ("", Err(WordFault::NoCommand)),
    ("demo", Err(WordFault::UnknownCommand)),
    ("demo 1", Err(WordFault::UnknownCommand)),
    ("demo 257 x", Err(WordFault::UnknownCommand)),
    ("save 3", Ok(Settings::Save { c: 3 })),
    ("run --nodes 0", Err(WordFault::BadValue)),
];

#[test]
fn words_set_what_they_say_or_the_first_faulty_one_is_judged(rt: HostRuntime) -> Result<(), Fail> {
    for (line, said) in &WORDS {
        let words = words_of(rt.alloc(), line)?;
        assert!(rt; read_words(&words) == *said, "{line}");
    }
    for (line, said) in &MODEL_WORDS {
        let words = words_of(rt.alloc(), line)?;
        assert!(rt; read_model_words(&words) == *said, "{line}");
    }
    Ok(())
}

const FAULT_NAMES: [(WordFault, &str); 7] = [
    (WordFault::NoCommand, "no command"),
    (WordFault::UnknownCommand, "unknown command"),
    (WordFault::UnknownOption, "unknown option"),
    (WordFault::RepeatedOption, "repeated option"),
    (WordFault::MissingValue, "missing value"),
    (WordFault::BadValue, "bad value"),
    (WordFault::ExtraWord, "extra word"),
];

#[test]
fn what_a_fault_is_called(rt: HostRuntime) -> Result<(), Fail> {
    for (fault, name) in &FAULT_NAMES {
        assert!(rt; fault.name() == *name);
        assert!(rt; fault.to_string(rt.alloc())?.as_str() == *name);
    }
    Ok(())
}
