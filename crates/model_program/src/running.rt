//! The commands that run a model.
ghost use Rattle.std.specs.Prelude.{◌≡◌, ◌≢◌, ℕ, Ok, IfSome};
ghost use Rattle.sim_io.specs.Words.{AreInBounds, model_settings, texts_of};
ghost use Rattle.sim_io.specs.declared.streams.reading.TheConstants.{ENOUGH_BYTES};
ghost use Rattle.sim_io.specs.declared.words.Settings.TheVariants.{Demo};
ghost use Rattle.program_answers.specs.Answered.{EndsAsked, EndsInput, EndsModel};
ghost use Rattle.program_answers.specs.Endings.{status_of_ending};
ghost use Rattle.model_reader.specs.Readings.{as_read};
ghost use Rattle.model_program.specs.Answer.{answer_of_command, answer_of_model, answer_to_model, asked_by, most_taken};
ghost use Rattle.model_program.specs.SavedRuns.{IsSavedSo};

use crate::run::{Job, Stage, run_model};
use crate::saving::{resume_command, save_to_the_end};
use crate::setting::{machine_of, telling_of};
use model_reader::{ModelReader, Refusal};
use node_team::Gate;
use program_answers::{Ending, ending_of, refused};
use sim_io::{Settings, Sink, Source, read_all, read_model_words};
use sim_spec::Terms;
use std::alloc::Global;
use std::thread::Threads;

/// Simulates a model, of which these are the bytes, and writes what the command tells of that.
fn answer_model<T: ModelReader, R: Threads + Sync, G: Gate, K: Sink>(
    stage: Stage<R, G>,
    model: T::Model,
    terms: Terms,
    bytes: &[u8],
    settings: Settings,
    out: &mut K,
) -> Ending
    requires bounds { AreInBounds settings }
    requires read { T.reading.read bytes.now ≡ Ok (as_read T.Model.meaning T.Tally.lines model terms) }
    ensures answer { EndsModel K.Sink out.old out.new result (answer_of_model settings bytes.now (as_read T.Model.meaning T.Tally.lines model terms)) }
    ensures saved { IsSavedSo T.reading.read (Ok settings) (status_of_ending result) bytes.now }
{
    match settings {
        Settings::Save { c } => save_to_the_end::<T, R, G, K>(stage, model, terms, bytes, c, out),
        _ => {
            let job = Job {
                model,
                terms,
                machine: machine_of(settings),
                telling: telling_of(settings),
            };
            ending_of(run_model::<R, G, T::Model, T::Tally, K>(stage, job, out))
        }
    }
}

/// Reads a model and writes what is told of its simulation, as it is set.
fn model_command<T: ModelReader, R: Threads + Sync, G: Gate, S: Source, K: Sink>(
    stage: Stage<R, G>,
    reader: &T,
    settings: Settings,
    source: &mut S,
    out: &mut K,
) -> Ending
    requires { AreInBounds settings }
    ensures answer { EndsInput S.Source K.Sink source.old source.new out.old out.new result ENOUGH_BYTES
        (λ bytes. answer_to_model T.reading settings bytes (T.reading.read bytes)) }
    ensures saved { IfSome (S.left source.old) (IsSavedSo T.reading.read (Ok settings) (status_of_ending result)) }
{
    let bytes = match read_all(stage.alloc, source) {
        Ok(bytes) => bytes,
        Err(end) => return Ending::from(end),
    };
    let bytes = bytes.as_slice();
    match reader.read(stage.alloc, bytes) {
        Ok((model, terms)) => {
            answer_model::<T, R, G, K>(stage, model, terms, bytes, settings, out)
        }
        Err(Refusal::At { code, item }) => {
            refused(stage.alloc, code, reader.code_name(code), item)
        }
        Err(Refusal::OutOfMemory) => Ending::OutOfMemory,
    }
}

/// Does what a command other than a demo asks for: reads a model or a saved state, and writes what is told of its simulation.
pub fn run_command<T: ModelReader, R: Threads + Sync, G: Gate, S: Source, K: Sink>(
    stage: Stage<R, G>,
    reader: &T,
    settings: Settings,
    source: &mut S,
    out: &mut K,
) -> Ending
    requires bounds { AreInBounds settings }
    requires no_demo { (n : ℕ) → settings ≢ Demo n }
    ensures answer { EndsInput S.Source K.Sink source.old source.new out.old out.new result (most_taken settings) (answer_of_command T.reading settings) }
    ensures saved { IfSome (S.left source.old) (IsSavedSo T.reading.read (Ok settings) (status_of_ending result)) }
{
    match settings {
        Settings::Resume => resume_command(stage, reader, source, out),
        _ => model_command(stage, reader, settings, source, out),
    }
}

/// Does what the words ask for, and answers how that ends. Nothing is read where they are refused.
pub fn run_words<T: ModelReader, R: Threads + Sync, G: Gate, S: Source, K: Sink>(
    stage: Stage<R, G>,
    reader: &T,
    words: &Vec<String>,
    source: &mut S,
    out: &mut K,
) -> Ending
    ensures ends { EndsAsked S.Source K.Sink source.old source.new out.old out.new result (asked_by T.reading words.now.items) }
    ensures saved { IfSome (S.left source.old) (IsSavedSo T.reading.read (model_settings (texts_of words.now.items)) (status_of_ending result)) }
{
    match read_model_words(words) {
        Ok(settings) => run_command(stage, reader, settings, source, out),
        Err(fault) => Ending::RefusedWords(fault),
    }
}
