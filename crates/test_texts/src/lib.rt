//! What the tests of several crates read: texts of models, of a saved state, and the words of a line; and what whole runs read from
//! and write to. Each stands here once.
#![tactic(auto)]

mod hops;
mod networks;
mod runs;
pub mod wanted;

pub use hops::{DRAWN, ENDLESS, LONG_TIE, LONGER_TIE, SHORT_DRAWN, SHORT_TIE, TIE};
pub use networks::{
    BANK, FALSE_FAULT, LATE, LONG_ROUTER_LOOP, LOSING, ROUTER_LOOP, SAVED_TWO_JOBS, SHOP,
    SHOP_OF_ELEVEN, SHOP_OF_TEN, SHOP_OF_TWELVE, SHORT_BANK, SHORT_ROUTER_LOOP, STRICT_LINE,
    STRICT_STATION, TWO_JOBS,
};
pub use runs::{Ended, sink_of, source_of, text_of};
use std::alloc::{AllocError, Global};

/// An input, its opposite a tick later, and a gate that is 1 where both are.
pub const PULSE: &str = "format = 2
model = \"circuit\"
end = 5

[[gate]]
name = \"a\"
kind = \"input\"
flips = [2]

[[gate]]
name = \"n\"
kind = \"not\"
from = [\"a\"]

[[gate]]
name = \"z\"
kind = \"and\"
delay = 0
from = [\"a\", \"n\"]
";

/// A gate without delay that feeds itself and turns at every step.
pub const GATE_RING: &str = "format = 2
model = \"circuit\"
end = 5
[[gate]]
name = \"n\"
kind = \"not\"
delay = 0
from = [\"n\"]
";

/// The same with three events.
pub const SHORT_GATE_RING: &str = "format = 2
model = \"circuit\"
end = 5
limit = 3
[[gate]]
name = \"n\"
kind = \"not\"
delay = 0
from = [\"n\"]
";

/// A network without objects.
pub const NOTHING: &str = "format = 1
model = \"network\"
end = 20
";

/// The words between the spaces of a line, of which an empty one has none.
pub fn words_of(alloc: Global, line: &str) -> Result<Vec<String>, AllocError> {
    let mut words = Vec::new(alloc);
    if line.is_empty() {
        return Ok(words);
    }
    for word in line.split(' ') {
        words.push(String::from_str(alloc, word)?)?;
    }
    Ok(words)
}

/// Texts, each so many times, one after another.
pub type Parts = &'static [(&'static str, usize)];

/// The text of these parts.
pub fn built(alloc: Global, parts: &[(&str, usize)]) -> Result<String, AllocError> {
    let mut text = String::new(alloc);
    for (part, count) in parts {
        let many = part.repeat(alloc, *count)?;
        text.push_str(many.as_str())?;
    }
    Ok(text)
}

/// The network of what stands at the top, and of these objects.
pub fn network(alloc: Global, top: &str, objects: &str) -> Result<String, AllocError> {
    format!(in alloc; "format = 1\nmodel = \"network\"\n{top}\n{objects}")
}

/// The circuit of what stands at the top, and of these gates.
pub fn circuit(alloc: Global, top: &str, gates: &str) -> Result<String, AllocError> {
    format!(in alloc; "format = 2\nmodel = \"circuit\"\n{top}\n{gates}")
}
