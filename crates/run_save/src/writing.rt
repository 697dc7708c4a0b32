//! Writing a state text.
ghost use Rattle.std.specs.Prelude.{◌≡◌, ◌<◌, ◌^◌, ◌++◌, codes, OnOk, OnErr};
ghost use Rattle.std.specs.Io.{StartsWith};
ghost use Rattle.run_save.specs.SavedLaws.{FitsTypes};
ghost use Rattle.run_save.specs.StateTexts.{named_text, state_text};

use crate::writing_lines::{put_events, put_model, put_named, put_objects};
use model_core::{Event, OutOfMemory};
use sim_io::cut_back;
use sim_spec::{ObjectState, State};

/// Appends the first two lines.
fn put_head(count: u64, into: &mut Vec<u8>) -> Result<(), OutOfMemory>
    ensures ok { OnOk result (into.new.items ≡ into.old.items ++ (codes "state 1\n" ++ named_text (codes "count") count)) }
    ensures prefix { StartsWith into.new.items into.old.items }
    ensures fits { count < 2 ^ 64 }
{
    into.extend_from_slice(b"state 1\n")?;
    put_named(b"count", count, into)
}

/// Appends the text of a state by its parts. Where memory runs out, it may have appended some of it.
#[tactic(auto, unfolding(crate::specs::StateTexts::state_text))]
fn put_parts(
    objects: &[ObjectState],
    pending: &[Event],
    count: u64,
    model: &[u8],
    into: &mut Vec<u8>,
) -> Result<(), OutOfMemory>
    ensures ok { OnOk result (into.new.items ≡ into.old.items
        ++ state_text (record { objects = objects.now; pending = pending.now; count = count }) model.now) }
    ensures prefix { StartsWith into.new.items into.old.items }
    ensures fits { OnOk result (FitsTypes (record { objects = objects.now; pending = pending.now; count = count })) }
{
    put_head(count, into)?;
    put_objects(objects, into)?;
    put_events(pending, into)?;
    put_model(model, into)
}

/// Appends the text of a state with the bytes of its model. Where memory runs out, it leaves what was there. It takes time
/// in proportion to the length of the text.
pub fn put_state(state: &State, model: &[u8], into: &mut Vec<u8>) -> Result<(), OutOfMemory>
    ensures ok { OnOk result (into.new.items ≡ into.old.items ++ state_text state.now model.now) }
    ensures fits { OnOk result (FitsTypes state.now) }
    ensures err { OnErr result (into.new.items ≡ into.old.items) }
{
    let before = into.len();
    let outcome = put_parts(&state.objects, &state.pending, state.count, model, into);
    cut_back(outcome, before, into)
}
