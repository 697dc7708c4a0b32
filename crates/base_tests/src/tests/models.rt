//! What is read as a model, and what a text is refused for.
mod circuits;
mod limits;
mod networks;
mod refusals;

use super::replaced;
use model_core::Start;
use model_core::model::Model;
use model_text::{AnyModel, Refusal, code_name, read_model};
use sim_spec::Terms;
use std::alloc::Global;
use std::process::Abort;
use std::test::Fail;
use test_texts::{BANK, LATE, LOSING, NOTHING, PULSE, ROUTER_LOOP, SHOP, TIE, TWO_JOBS};

/// The code and the item with which a text is refused. A text that is read has code 0 and item 0.
type Answer = (u8, u32);

/// What becomes of the first place of a text in the changed one, and the answer to that.
type Change = (&'static str, &'static str, Answer);

/// Changes of a text, and what their answers show.
struct Changes {
    shows: &'static str,
    text: &'static str,
    changes: &'static [Change],
}

/// The same, with an answer in the first format and one in the second.
struct ChangesByFormat {
    shows: &'static str,
    text: &'static str,
    changes: &'static [(&'static str, &'static str, Answer, Answer)],
}

/// What a text is refused for, unless memory ran out.
fn answer_of(alloc: Global, text: &[u8]) -> Option<Answer> {
    match read_model(alloc, text) {
        Ok(_) => Some((0, 0)),
        Err(Refusal::At { code, item }) => Some((code, item)),
        Err(Refusal::OutOfMemory) => None,
    }
}

/// The model of a text, with its terms.
fn model_of(alloc: Global, text: &str) -> Result<(AnyModel, Terms), Fail> {
    let Ok(read) = read_model(alloc, text.as_bytes()) else {
        return Err(Fail::from("the model is refused"));
    };
    Ok(read)
}

/// Each change has its answer.
fn assert_changes<R: Abort>(rt: &R, alloc: Global, all: &Changes) -> Result<(), Fail> {
    for (old, new, wanted) in all.changes {
        let text = replaced(alloc, all.text, old, new)?;
        let answer = answer_of(alloc, text.as_bytes());
        assert!(rt; answer == Some(*wanted), "{}: {new}", all.shows);
    }
    Ok(())
}

/// Each change has its answer in either format.
fn assert_by_format<R: Abort>(rt: &R, alloc: Global, all: &ChangesByFormat) -> Result<(), Fail> {
    for (old, new, first, second) in all.changes {
        let text = replaced(alloc, all.text, old, new)?;
        let later = replaced(alloc, text.as_str(), "format = 1", "format = 2")?;
        let answers = (
            answer_of(alloc, text.as_bytes()),
            answer_of(alloc, later.as_bytes()),
        );
        assert!(rt;
            answers == (Some(*first), Some(*second)),
            "{}: {new}",
            all.shows
        );
    }
    Ok(())
}

/// A network whose source and job have ranks.
const RANKS: &str = "format = 2
model = \"network\"
end = 20

[[object]]
name = \"in\"
kind = \"source\"
first = 1
every = { law = \"fixed\", value = 2 }
count = 3
rank = 7
next = \"s\"

[[object]]
name = \"s\"
kind = \"station\"
servers = 1
line = 10
service = { law = \"fixed\", value = 3 }
next = \"out\"

[[object]]
name = \"out\"
kind = \"sink\"

[[job]]
time = 2
at = \"s\"
rank = 9
";

/// Four events at each object, since nothing says how many.
const DEFAULTS: &str = "format = 1
model = \"phold\"
end = 9
[phold]
objects = 2
each = 4
delay = { law = \"uniform\", low = 1, high = 10 }
to = \"uniform\"
";

/// The text of a model, its end and its limit, and how many objects and initial events it has.
type Read = (&'static str, u64, u64, u32, u32);

const MODELS: [Read; 11] = [
    (TIE, 9, 10_000_000, 3, 2),
    (DEFAULTS, 9, 10_000_000, 2, 8),
    (PULSE, 5, 10_000_000, 3, 3),
    (SHOP, 20, 10_000_000, 3, 1),
    (TWO_JOBS, 10, 10_000_000, 2, 2),
    (LOSING, 10, 10_000_000, 2, 2),
    (ROUTER_LOOP, 5, 10, 2, 1),
    (LATE, 10, 10_000_000, 2, 1),
    (BANK, 100_000, 10_000_000, 5, 1),
    (NOTHING, 20, 10_000_000, 0, 0),
    (RANKS, 20, 10_000_000, 3, 2),
];

/// Texts of models, and one initial event of each by its place.
const STARTS: [(&str, u32, Start); 4] = [
    (
        TIE,
        1,
        Start {
            time: 5,
            dest: 0,
            kind: 4,
            a: 0,
            b: 0,
            rank: 0,
        },
    ),
    (
        PULSE,
        2,
        Start {
            time: 2,
            dest: 0,
            kind: 7,
            a: 0,
            b: 0,
            rank: 0,
        },
    ),
    // the first job of a source, and a job that is listed, each of the rank that its table says
    (
        RANKS,
        0,
        Start {
            time: 1,
            dest: 0,
            kind: 1,
            a: 0,
            b: 0,
            rank: 7,
        },
    ),
    (
        RANKS,
        1,
        Start {
            time: 2,
            dest: 1,
            kind: 3,
            a: 1,
            b: 2,
            rank: 9,
        },
    ),
];

/// The initial event at a place.
fn start_at<M: Model>(model: &M, place: u32) -> Option<Start> {
    if place < model.starts() {
        return Some(model.start(place));
    }
    None
}

/// A model and its terms are as a text says. They are lent, since an assertion beside a model that is owned is dear.
fn assert_read<R: Abort, M: Model>(rt: &R, model: &M, terms: &Terms, read: &Read) {
    let (text, end, limit, objects, starts) = read;
    assert!(rt; (terms.end, terms.limit) == (*end, *limit), "{text}");
    assert!(rt;
        (model.objects(), model.starts()) == (*objects, *starts),
        "{text}"
    );
}

/// The initial event at a place is this one.
fn assert_start<R: Abort, M: Model>(rt: &R, model: &M, place: u32, start: &Start, text: &str) {
    assert!(rt; start_at(model, place) == Some(*start), "{text}");
}

#[test]
fn models_have_their_terms_objects_and_initial_events(rt: HostRuntime) -> Result<(), Fail> {
    for read in &MODELS {
        let (model, terms) = model_of(rt.alloc(), read.0)?;
        assert_read(&rt, &model, &terms, read);
    }
    for (text, place, start) in &STARTS {
        let (model, _terms) = model_of(rt.alloc(), text)?;
        assert_start(&rt, &model, *place, start, text);
    }
    Ok(())
}

/// Each change of each text has its answer.
fn assert_all<R: Abort>(rt: &R, alloc: Global, tables: &[Changes]) -> Result<(), Fail> {
    for all in tables {
        assert_changes(rt, alloc, all)?;
    }
    Ok(())
}

#[test]
fn changed_texts_are_read_or_refused_for_the_first_check_that_fails(
    rt: HostRuntime,
) -> Result<(), Fail> {
    assert_all(&rt, rt.alloc(), &refusals::ALL)?;
    assert_all(&rt, rt.alloc(), &networks::ALL)?;
    assert_all(&rt, rt.alloc(), &circuits::ALL)?;
    assert_all(&rt, rt.alloc(), &limits::ALL)
}

#[test]
fn the_second_format_adds_ranks_and_what_objects_tell(rt: HostRuntime) -> Result<(), Fail> {
    for all in &networks::BY_FORMAT {
        assert_by_format(&rt, rt.alloc(), all)?;
    }
    assert_by_format(&rt, rt.alloc(), &refusals::HOPS_BY_FORMAT)
}

/// Bytes that are no text.
const NO_TEXTS: [&[u8]; 2] = [b"a = \"\xFF\"\n", b"\xFF"];

const CODE_NAMES: [&str; 9] = [
    "", "TooLong", "NotToml", "Missing", "Unknown", "BadValue", "BadLink", "Limit", "",
];

#[test]
fn what_is_no_text_is_not_toml_and_each_code_has_its_name(rt: HostRuntime) {
    for bytes in &NO_TEXTS {
        assert!(rt; answer_of(rt.alloc(), bytes) == Some((2, 0)), "{bytes:?}");
    }
    for (code, name) in (0..).zip(CODE_NAMES) {
        assert!(rt; code_name(code) == name);
    }
}
