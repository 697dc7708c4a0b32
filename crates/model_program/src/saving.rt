//! The commands of saved states.
ghost use Rattle.std.specs.Prelude.{◌≡◌, ◌≤◌, ◌+◌, length, Ok, OnOk};
ghost use Rattle.sim_io.specs.Taken.{Appends, Keeps};
ghost use Rattle.sim_io.specs.declared.words.TheConstants.{MOST_SAVED_CYCLES};
ghost use Rattle.sim_io.specs.Causes.{HasCause};
ghost use Rattle.sim_io.specs.Transfers.{AppendsPrefix};
ghost use Rattle.run_save.specs.SavedLaws.{FitsTypes};
ghost use Rattle.run_save.specs.SavedStates.{state_of};
ghost use Rattle.run_save.specs.StateTexts.{state_text};
ghost use Rattle.run_save.specs.declared.reading.TheConstants.{MOST_STATE_BYTES};
ghost use Rattle.program_answers.specs.Answered.{EndsInput, EndsModel};
ghost use Rattle.program_answers.specs.declared.status.TheConstants.{END};
ghost use Rattle.program_answers.specs.Endings.{status_of_ending};
ghost use Rattle.model_reader.specs.Readings.{as_read};
ghost use Rattle.model_program.specs.Answer.{answer_of_save, answer_of_state, answer_to_state};
ghost use Rattle.model_program.specs.SavedRuns.{IsSaved};

use crate::laws::law_saved_runs;
use crate::run::{Stage, resume_model, save_model};
use crate::setting::spread_of;
use crate::state_refusal::refused_state;
use model_reader::ModelReader;
use node_team::Gate;
use program_answers::{Ending, ending_of};
use run_save::{MOST_STATE_BYTES, Saved, StateCause, StateRefusal, put_state, read_state};
use sim_io::{Failed, Settings, Sink, Source, read_some, write_all};
use sim_spec::{State, Terms};
use std::alloc::Global;
use std::thread::Threads;

/// Writes a text and hands it on.
fn hand_out<K: Sink>(text: &[u8], out: &mut K) -> Result<(), Failed>
    ensures all { OnOk result (Appends (K.told out.old) (K.told out.new) text.now) }
    ensures handed { OnOk result (Keeps (K.told out.new) (K.handed out.new)) }
    ensures prefix { AppendsPrefix (K.told out.old) (K.told out.new) text.now }
    ensures cause { HasCause (K.faults out.old) (K.faults out.new) result }
    ensures quiet { OnOk result (K.faults out.new ≡ K.faults out.old) }
{
    write_all(out, text)?;
    out.flush()
}

/// Writes the text of a state with the bytes of its model, and hands it on, unless it is too long: that is told then.
fn write_state<K: Sink>(alloc: Global, state: &State, bytes: &[u8], out: &mut K) -> Ending
    ensures answer { EndsModel K.Sink out.old out.new result (answer_of_state state.now bytes.now) }
    ensures fits { status_of_ending result ≡ END → FitsTypes state.now }
    ensures short { status_of_ending result ≡ END → length (state_text state.now bytes.now) ≤ MOST_STATE_BYTES }
{
    let mut text = Vec::new(alloc);
    if put_state(state, bytes, &mut text).is_err() {
        return Ending::OutOfMemory;
    }
    if text.len() > MOST_STATE_BYTES {
        return refused_state(alloc, StateCause::TooLong.code(), 0);
    }
    match hand_out(text.as_slice(), out) {
        Ok(()) => Ending::Saved,
        Err(Failed) => Ending::WriteFault,
    }
}

/// Simulates the first cycles of a model, of which these are the bytes, and writes their records and the state after them.
pub fn save_to_the_end<T: ModelReader, R: Threads + Sync, G: Gate, K: Sink>(
    stage: Stage<R, G>,
    model: T::Model,
    terms: Terms,
    bytes: &[u8],
    cycles: u32,
    out: &mut K,
) -> Ending
    requires few { cycles ≤ MOST_SAVED_CYCLES }
    requires read { T.reading.read bytes.now ≡ Ok (as_read T.Model.meaning T.Tally.lines model terms) }
    ensures answer { EndsModel K.Sink out.old out.new result (answer_of_save cycles bytes.now (as_read T.Model.meaning T.Tally.lines model terms)) }
    ensures saved { status_of_ending result ≡ END → IsSaved T.reading.read cycles bytes.now }
{
    law_saved_runs::<T, T::Model>(&model, &terms);
    let spread = spread_of(Settings::Save { c: cycles });
    match save_model(stage, model, terms, spread, cycles, out) {
        Ok(state) => write_state(stage.alloc, &state, bytes, out),
        Err(cause) => Ending::from(cause),
    }
}

/// Reads a saved state, and writes what is told of its simulation from there on.
pub fn resume_command<T: ModelReader, R: Threads + Sync, G: Gate, S: Source, K: Sink>(
    stage: Stage<R, G>,
    reader: &T,
    source: &mut S,
    out: &mut K,
) -> Ending
    ensures { EndsInput S.Source K.Sink source.old source.new out.old out.new result (MOST_STATE_BYTES + 1)
        (λ bytes. answer_to_state (state_of T.reading.read bytes)) }
{
    let bytes = match read_some(stage.alloc, source, MOST_STATE_BYTES) {
        Ok(bytes) => bytes,
        Err(end) => return Ending::from(end),
    };
    match read_state(reader, stage.alloc, bytes.as_slice()) {
        Ok(
            Saved {
                model,
                terms,
                state,
            },
        ) => {
            let spread = spread_of(Settings::Resume);
            ending_of(resume_model(stage, model, terms, spread, state, out))
        }
        Err(StateRefusal::At { code, line }) => refused_state(stage.alloc, code, line),
        Err(StateRefusal::OutOfMemory) => Ending::OutOfMemory,
    }
}
