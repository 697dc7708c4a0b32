//! Reading a state text.
ghost use Rattle.std.specs.Prelude.{◌≡◌, ℕ, List, IfOk};
ghost use Rattle.model_reader.specs.Readings.{ModelOf, as_read};
ghost use Rattle.sim_spec.specs.State.{State, Lawful};
ghost use Rattle.run_save.specs.Checks.{Gives};
ghost use Rattle.run_save.specs.Lines.{model_bytes, whole_text};
ghost use Rattle.run_save.specs.SavedLaws.{IsSavable, IsTextOf, saved_with};
ghost use Rattle.run_save.specs.SavedStates.{read_at, state_of};
ghost use Rattle.run_save.specs.StateTexts.{state_text};
ghost use Rattle.run_save.specs.Views.{draft_of, rest_of, saved_of};

use crate::cursor::Cursor;
use crate::draft::Draft;
use crate::reading_checks::check_lawful;
use crate::refusal::{StateCause, StateRefusal};
use crate::saved::Saved;
use model_core::{MOST_OBJECTS, MOST_TEXT_BYTES};
use model_reader::{ModelReader, Refusal};
use sim_spec::{State, Terms};
use std::alloc::Global;

/// How many bytes a state text has at most: 64 MiB.
pub const MOST_STATE_BYTES: usize = 67_108_864;

impl<'a> Cursor<'a> {
    /// The line of the model's length, and the model's bytes, which are all that is left.
    #[tactic(auto, unfolding(crate::specs::Lines::model_bytes))]
    fn model_bytes(&mut self) -> Result<&'a [u8], StateRefusal>
        ensures { Gives (λ bytes. bytes.now) result (model_bytes (rest_of self.old)) }
    {
        let line = self.line;
        let size = self.named(b"model", MOST_TEXT_BYTES as u64)?;
        if size == 0 || size != self.bytes.len() as u64 {
            return Err(StateCause::BadLine.at(line));
        }
        Ok(self.bytes)
    }

    /// All lines, from the first to the last.
    #[tactic(auto, unfolding(crate::specs::Lines::whole_text))]
    fn whole_text(&mut self, alloc: Global) -> Result<Draft<'a>, StateRefusal>
        ensures { Gives (λ draft. draft_of draft) result (whole_text (rest_of self.old)) }
    {
        self.skip(b"state 1")?;
        self.next_line()?;
        let count = self.named(b"count", u64::MAX)?;
        let many = self.named(b"objects", u64::from(MOST_OBJECTS))?;
        let objects = self.objects(alloc, many)?;
        let waiting = self.named(b"events", u64::MAX)?;
        let pending = self.events(alloc, waiting)?;
        let line = self.line;
        let model = self.model_bytes()?;
        Ok(Draft {
            objects,
            pending,
            count,
            model,
            line,
        })
    }
}

/// The model that the bytes at a line say.
fn read_at<T: ModelReader>(
    reader: &T,
    alloc: Global,
    line: u64,
    bytes: &[u8],
) -> Result<(T::Model, Terms), StateRefusal>
    ensures { Gives (λ read. as_read T.Model.meaning T.Tally.lines read.0 read.1) result (read_at line (T.reading.read bytes.now)) }
{
    match reader.read(alloc, bytes) {
        Ok(read) => Ok(read),
        Err(Refusal::At { .. }) => Err(StateCause::BadModel.at(line)),
        Err(Refusal::OutOfMemory) => Err(StateRefusal::OutOfMemory),
    }
}

/// The state that a text says, or the first check that fails.
#[tactic(auto, unfolding(crate::specs::SavedStates::state_of, crate::specs::SavedStates::judged))]
fn saved_state<T: ModelReader>(
    reader: &T,
    alloc: Global,
    bytes: &[u8],
) -> Result<Saved<T::Model>, StateRefusal>
    ensures { Gives (saved_of T.Model.meaning T.Tally.lines) result (state_of T.reading.read bytes.now) }
{
    if bytes.len() > MOST_STATE_BYTES {
        return Err(StateCause::TooLong.at(0));
    }
    let mut cursor = Cursor::new(bytes);
    let draft = cursor.whole_text(alloc)?;
    let (model, terms) = read_at(reader, alloc, draft.line, draft.model)?;
    check_lawful(&model, &terms, draft.count, &draft.objects, &draft.pending)?;
    let state = State {
        objects: draft.objects,
        pending: draft.pending,
        count: draft.count,
    };
    Ok(Saved {
        model,
        terms,
        state,
    })
}

/// The state that a text says, with the model and the terms that its last bytes say. A text that says none is refused with
/// the code and the line of the first check that fails, and nothing is read where memory runs out. It takes time in
/// proportion to the length of the text.
pub fn read_state<T: ModelReader>(
    reader: &T,
    alloc: Global,
    bytes: &[u8],
) -> Result<Saved<T::Model>, StateRefusal>
    // Which check it is.
    ensures exact { Gives (saved_of T.Model.meaning T.Tally.lines) result (state_of T.reading.read bytes.now) }
    // What is read was written so.
    ensures read { IfOk result (λ saved. IsTextOf T.reading.read bytes.now (saved_of T.Model.meaning T.Tally.lines saved)) }
    ensures lawful { IfOk result (λ saved. Lawful (T.Model.meaning saved.model) saved.terms saved.state) }
    // What was written so is read, unless memory runs out.
    ensures written { (s : State) (model : List ℕ) (read : ModelOf) → IsSavable T.reading.read s model read → bytes.now ≡ state_text s model
        → Gives (saved_of T.Model.meaning T.Tally.lines) result (Ok (saved_with read s)) }
{
    saved_state(reader, alloc, bytes)
}
