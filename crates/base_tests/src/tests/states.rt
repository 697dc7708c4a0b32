//! The texts of saved states, and what they are refused for.
mod limits;

use super::replaced;
use model_core::model::Model;
use model_text::ModelTexts;
use run_save::{StateRefusal, put_state, read_state, state_code_name};
use sim_spec::State;
use std::alloc::Global;
use std::process::Abort;
use std::test::Fail;
use test_texts::{SAVED_TWO_JOBS, TWO_JOBS};

/// The code and the line with which a text is refused. A text that is read has code 0 and line 0.
type Answer = (u8, u64);

/// What becomes of the first place of a text in the changed one, and the answer to that.
type Change = (&'static str, &'static str, Answer);

/// The code and the line with which a text is refused, unless memory ran out.
fn refusal_of(alloc: Global, text: &[u8]) -> Option<Answer> {
    match read_state(&ModelTexts, alloc, text) {
        Ok(_) => Some((0, 0)),
        Err(StateRefusal::At { code, line }) => Some((code, line)),
        Err(StateRefusal::OutOfMemory) => None,
    }
}

/// Each of these changes of the saved text has its answer.
fn assert_changes<R: Abort>(rt: &R, alloc: Global, changes: &[Change]) -> Result<(), Fail> {
    for (old, new, wanted) in changes {
        let text = replaced(alloc, SAVED_TWO_JOBS, old, new)?;
        let refusal = refusal_of(alloc, text.as_bytes());
        assert!(rt; refusal == Some(*wanted), "{new}");
    }
    Ok(())
}

/// The state of the two jobs is written behind what stands there.
fn assert_written<R: Abort>(rt: &R, alloc: Global, state: &State) -> Result<(), Fail> {
    let mut into = Vec::from_slice(alloc, b"before ")?;
    let written = put_state(state, TWO_JOBS.as_bytes(), &mut into);
    assert!(rt; written == Ok(()));
    let wanted = ["before ", SAVED_TWO_JOBS].concat(alloc)?;
    assert!(rt; into.as_slice() == wanted.as_bytes());
    Ok(())
}

#[test]
fn a_saved_state_is_read_and_written_again(rt: HostRuntime) -> Result<(), Fail> {
    let alloc = rt.alloc();
    let saved = read_state(&ModelTexts, alloc, SAVED_TWO_JOBS.as_bytes())
        .ok()
        .ok_or("it is read")?;
    assert!(rt; saved.terms.end == 10);
    assert!(rt; saved.model.objects() == 2);
    assert!(rt; saved.state.count == 2);
    assert_written(&rt, alloc, &saved.state)
}

const KEY: &str = "6.0 0 0 0 0";

const FIRST_CHECKS: [Change; 29] = [
    (SAVED_TWO_JOBS, "", (2, 1)),
    ("state 1", "state 1", (0, 0)),
    ("state 1", "state 2", (2, 1)),
    ("count 2", "count", (2, 2)),
    ("count 2", "count  2", (2, 2)),
    ("count 2", "count 18446744073709551616", (2, 2)),
    ("count 2", "count 10000001", (4, 2)),
    ("objects 2", "objects 65537", (2, 3)),
    ("objects 2", "objects 3", (2, 6)),
    ("object 0 1 0 0\nevents", "events", (2, 5)),
    ("object 1 2", "object 01 2", (2, 4)),
    ("object 1 2", "object 17 2", (4, 4)),
    ("object 1 2 0 1", "object 1 2 0 2", (4, 4)),
    ("object 0 1 0 0", "object 0 1 0 0 ", (2, 5)),
    ("object 0 1 ", "object 0 99999999999999999999 ", (2, 5)),
    ("events 1", "events 2", (2, 8)),
    (KEY, "140737488355328.0 0 0 0 0", (2, 7)),
    (KEY, "6.65536 0 0 0 0", (2, 7)),
    (KEY, "6.0 256 0 0 0", (4, 7)),
    (KEY, "6.0 4294967296 0 0 0", (2, 7)),
    (KEY, "6.0 0 2 0 0", (4, 7)),
    (KEY, "6.0 0 0 1 0", (4, 7)),
    (KEY, "6.0 0 0 0 1", (4, 7)),
    (KEY, "6.0 0 0 4294967295 1", (0, 0)),
    (KEY, "6.0 0 0 4294967295 2", (4, 7)),
    ("model 223", "model 222", (2, 8)),
    ("model 223", "model 224", (2, 8)),
    ("model 223", "model 0", (2, 8)),
    ("model 223\n", "model 224\n=", (3, 8)),
];

/// The only event, and its line.
const ONE: &str = "events 1\nevent 6.0 0 0 0 0 2 1 4";

/// Events come in the order of their keys.
const ORDERS: [Change; 3] = [
    (
        ONE,
        "events 2\nevent 6.0 0 0 4294967295 0 2 1 4\nevent 6.0 0 0 4294967295 1 2 1 4",
        (0, 0),
    ),
    (
        ONE,
        "events 2\nevent 6.0 0 0 4294967295 1 2 1 4\nevent 6.0 0 0 4294967295 0 2 1 4",
        (2, 8),
    ),
    (
        ONE,
        "events 2\nevent 6.0 0 0 0 0 2 1 4\nevent 6.0 0 0 0 0 3 1 4",
        (2, 8),
    ),
];

#[test]
fn changed_states_are_read_or_refused_for_the_first_check_that_fails(
    rt: HostRuntime,
) -> Result<(), Fail> {
    assert_changes(&rt, rt.alloc(), &FIRST_CHECKS)?;
    assert_changes(&rt, rt.alloc(), &ORDERS)?;
    assert_changes(&rt, rt.alloc(), &limits::NUMBERS)?;
    assert_changes(&rt, rt.alloc(), &limits::EVENT_NUMBERS)?;
    assert_changes(&rt, rt.alloc(), &limits::LARGE_COUNTS)
}

const CODE_NAMES: [&str; 6] = ["", "TooLong", "BadLine", "BadModel", "Unlawful", ""];

#[test]
fn what_a_code_is_called(rt: HostRuntime) {
    for (code, name) in (0..).zip(CODE_NAMES) {
        assert!(rt; state_code_name(code) == name);
    }
}
