//! The words that ask for a table.
use replications::{WindowStart, read_replicate_words};
use std::alloc::AllocGlobal;
use std::process::Abort;
use std::test::Fail;
use test_texts::words_of;

/// The words of a line, and the name of what is wrong with them, or nothing.
type Line = (&'static str, &'static str);

/// The words of each line are wrong so.
fn assert_faults<R: Abort + AllocGlobal>(
    rt: &R,
    start: WindowStart,
    lines: &[Line],
) -> Result<(), Fail> {
    for (line, wanted) in lines {
        let words = words_of(rt.alloc(), line)?;
        let fault = match read_replicate_words(start, words.as_slice()) {
            Ok(_) => "",
            Err(fault) => fault.name(),
        };
        assert!(rt; fault == *wanted, "{line}");
    }
    Ok(())
}

const LINES: [Line; 12] = [
    ("", "missing value"),
    ("0", "bad value"),
    ("100001", "bad value"),
    ("01", "bad value"),
    ("x", "bad value"),
    ("1 --workers 65", "bad value"),
    ("1 --first 9223372036854775808", "bad value"),
    ("2 3", "extra word"),
    ("2 --nodes 3", "unknown option"),
    ("2 --from 1 --from 2", "repeated option"),
    ("2 --from", "missing value"),
    (
        "100000 --from 70368744177663 --workers 64 --first 9223372036854775807",
        "",
    ),
];

#[test]
fn words_are_walked_in_turn(rt: HostRuntime) -> Result<(), Fail> {
    assert_faults(&rt, WindowStart::Words, &LINES)
}

const LINES_WITHOUT_A_WINDOW: [Line; 5] = [
    ("", "missing value"),
    ("2 --from 5", "unknown option"),
    ("2 --from", "unknown option"),
    ("2 --workers 1 --first", "missing value"),
    ("100000 --workers 64 --first 7", ""),
];

#[test]
fn a_model_that_says_its_window_leaves_no_option_for_it(rt: HostRuntime) -> Result<(), Fail> {
    assert_faults(&rt, WindowStart::Model, &LINES_WITHOUT_A_WINDOW)
}
