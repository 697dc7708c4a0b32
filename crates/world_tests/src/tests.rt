//! What the tests share.
mod engine;
mod forks;
mod moves;
mod team_run;
mod worlds;

use model_core::Entry;
use model_text::{AnyModel, read_model};
use phold_model::Phold;
use random_streams::Law;
use sim_spec::Terms;
use std::alloc::Global;
use std::sync::Arc;
use std::test::Fail;

/// The model of a text, with its terms.
fn model_of(alloc: Global, text: &str) -> Result<(AnyModel, Terms), Fail> {
    let Ok(read) = read_model(alloc, text.as_bytes()) else {
        return Err(Fail::from("the model is refused"));
    };
    Ok(read)
}

/// So many objects, each of which sends its event to the next one in five ticks.
fn hops(alloc: Global, objects: u32) -> Result<(Arc<AnyModel>, Terms), Fail> {
    let text = format!(in alloc;
        "format = 1
model = \"phold\"
end = 1000

[phold]
objects = {objects}
delay = {{ law = \"fixed\", value = 5 }}
to = \"next\"
each = 1
"
    )?;
    let (model, terms) = model_of(alloc, text.as_str())?;
    Ok((Arc::new(alloc, model)?, terms))
}

/// Three objects in a ring, whose events take five ticks from each to the next. The second initial event ties with what the
/// first one sends.
fn ring(alloc: Global) -> Result<Phold, Fail> {
    let delay = Law::Fixed { value: 5 };
    if !delay.is_delay() {
        return Err(Fail::from("no delay"));
    }
    let start = vec![in alloc;
        Entry {
            time: 0,
            at: 1,
            rank: 0
        },
        Entry {
            time: 5,
            at: 0,
            rank: 0
        },
    ]?;
    Ok(Phold::make(0, 3, delay, false, 0, start, 0)?)
}
