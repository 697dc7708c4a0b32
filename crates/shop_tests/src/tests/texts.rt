//! What is read as a shop, and what a text is refused for.
mod limits;
mod refusals;

use super::models::MILL;
use model_core::model::Model;
use shop_model::Shop;
use shop_text::{Refusal, read_shop};
use sim_spec::Terms;
use std::alloc::Global;
use std::process::Abort;
use std::test::Fail;

/// The code and the item with which a text is refused. A text that is read has code 0 and item 0.
type Answer = (u8, u32);

/// What becomes of the first place of a text in the changed one, and the answer to that.
type Change = (&'static str, &'static str, Answer);

/// Changes of a text, and what their answers show.
struct Changes {
    shows: &'static str,
    text: &'static str,
    changes: &'static [Change],
}

/// The only step of the mill's parts.
const STEP: &str = "{ at = \"mill\", service = { law = \"fixed\", value = 3 } }";

/// What a text is refused for, unless memory ran out.
fn answer_of(alloc: Global, text: &[u8]) -> Option<Answer> {
    match read_shop(alloc, text) {
        Ok(_) => Some((0, 0)),
        Err(Refusal::At { code, item }) => Some((code, item)),
        Err(Refusal::OutOfMemory) => None,
    }
}

/// The shop of a text, with its terms.
fn shop_of(alloc: Global, text: &str) -> Result<(Shop, Terms), Fail> {
    let Ok(read) = read_shop(alloc, text.as_bytes()) else {
        return Err(Fail::from("the shop is refused"));
    };
    Ok(read)
}

/// The text with the first place of `old` replaced.
fn replaced(alloc: Global, text: &str, old: &str, new: &str) -> Result<String, Fail> {
    let (front, back) = text.split_once(old).ok_or("no such place")?;
    Ok(format!(in alloc; "{front}{new}{back}")?)
}

/// Each change has its answer.
fn assert_changes<R: Abort>(rt: &R, alloc: Global, all: &Changes) -> Result<(), Fail> {
    for (old, new, wanted) in all.changes {
        let text = replaced(alloc, all.text, old, new)?;
        let answer = answer_of(alloc, text.as_bytes());
        assert!(rt; answer == Some(*wanted), "{}: {new}", all.shows);
    }
    Ok(())
}

/// A shop with a bit of all: shifts, breakdowns, holding, freeing, a branch, and two classes.
const CLINIC: &str = "format = 1
model = \"shop\"
end = 480
seed = 7
limit = 1000
from = 60

[[station]]
name = \"desk\"
servers = 2
line = 5
order = \"priority\"
shifts = [ { at = 5, servers = 3 }, { at = 8, servers = 1 } ]
period = 9
up = { law = \"fixed\", value = 5 }
down = { law = \"fixed\", value = 3 }

[[station]]
name = \"room\"
order = \"last\"

[[class]]
name = \"calm\"
every = { law = \"uniform\", low = 1, high = 9 }
times = [3, 3, 4]
batch = { law = \"table\", values = [1, 2] }
priority = 1
due = 0
route = [
  { label = \"again\", at = \"desk\", service = { law = \"steps\", bounds = [0, 10, 40], weights = [1, 0] }, patience = { law = \"geometric\", p = 1, cap = 2, unit = 3 }, away = \"again\", full = \"out\" },
  { hold = \"room\", patience = { law = \"fixed\", value = 0 }, away = \"drop\", full = \"again\" },
  { delay = { law = \"geometric\", p = 1, cap = 2 } },
  { free = \"room\" },
  { label = \"choose\", go = [\"again\", \"out\", \"drop\"], weights = [1, 1, 0] },
]

[[class]]
name = \"urgent\"
times = [9]
route = [ { go = [\"out\"] } ]
";

const NOTHING: &str = "format = 1\nmodel = \"shop\"\nend = 0\n";

/// Texts of shops, their ends and limits, and how many objects and initial events they have.
const SHOPS: [(&str, u64, u64, u32, u32); 3] = [
    (MILL, 20, 10_000_000, 2, 1),
    (CLINIC, 480, 1_000, 4, 7),
    (NOTHING, 0, 10_000_000, 0, 0),
];

#[test]
fn shops_have_their_terms_objects_and_initial_events(rt: HostRuntime) -> Result<(), Fail> {
    for (text, end, limit, objects, starts) in &SHOPS {
        let (shop, terms) = shop_of(rt.alloc(), text)?;
        assert!(rt; terms.end == *end && terms.limit == *limit, "{text}");
        assert!(rt; shop.objects() == *objects, "{text}");
        assert!(rt; shop.starts() == *starts, "{text}");
    }
    Ok(())
}

/// Objects, and how many words and lines their cells have. A station has six words, one for each level, and one for each of
/// the most servers.
const CELLS: [(u32, u32, u32); 3] = [(0, 6 + 2 + 3, 9), (1, 6 + 1 + 1, 5), (2, 3, 0)];

/// An object of a model has cells of so many words and lines at first.
fn assert_cells<R: Abort, M: Model>(
    rt: &R,
    alloc: Global,
    model: &M,
    cells: &(u32, u32, u32),
) -> Result<(), Fail> {
    let (object, words, lines) = cells;
    assert!(rt; *object < model.objects());
    let first = model.first_cells(alloc, *object)?;
    assert!(rt;
        first.words() == *words && first.lines() == *lines,
        "{object}"
    );
    Ok(())
}

/// What all objects of a model are called, each with a space behind it.
fn names_of<M: Model>(alloc: Global, model: &M) -> Result<Vec<u8>, Fail> {
    let mut names = Vec::new(alloc);
    for object in 0..model.objects() {
        model.put_name(alloc, object, &mut names)?;
        names.push(b' ')?;
    }
    Ok(names)
}

#[test]
fn a_line_has_a_level_for_each_priority_and_names_are_told(rt: HostRuntime) -> Result<(), Fail> {
    let (shop, _terms) = shop_of(rt.alloc(), CLINIC)?;
    for cells in &CELLS {
        assert_cells(&rt, rt.alloc(), &shop, cells)?;
    }
    let names = names_of(rt.alloc(), &shop)?;
    assert!(rt; names.as_slice() == b"desk room calm urgent ".as_slice());
    Ok(())
}

#[test]
fn changed_texts_are_read_or_refused_for_the_first_check_that_fails(
    rt: HostRuntime,
) -> Result<(), Fail> {
    for all in &refusals::ALL {
        assert_changes(&rt, rt.alloc(), all)?;
    }
    for all in &limits::ALL {
        assert_changes(&rt, rt.alloc(), all)?;
    }
    Ok(())
}
