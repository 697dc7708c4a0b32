//! From words and a text to a table.
ghost use Rattle.std.specs.Prelude.{◌≤◌, ◌<◌, ◌^◌};
ghost use Rattle.program_answers.specs.Answered.{EndsAsked, EndsInput, EndsModel};
ghost use Rattle.program_answers.specs.Endings.{status_of_ending};
ghost use Rattle.program_answers.specs.declared.status.TheConstants.{EVENT_LIMIT};
ghost use Rattle.sim_io.specs.Words.{texts_of};
ghost use Rattle.sim_io.specs.declared.streams.reading.TheConstants.{ENOUGH_BYTES};
ghost use Rattle.replications.specs.ReplicateWords.{AreInBounds};
ghost use Rattle.table_program.specs.Families.{family_read};
ghost use Rattle.table_program.specs.TableAnswers.{answer_to_family, answer_to_read, table_asked_by};

use crate::family::Family;
use crate::reader::FamilyReader;
use model_reader::Refusal;
use program_answers::{Ending, ending_of, refused};
use replications::{Replicate, Study, read_replicate_words, write_table};
use sim_io::{Sink, Source, read_all};
use std::alloc::Global;
use std::thread::Threads;

/// Runs a model as it is asked for, and writes the table with this head line.
fn tabulate<T: FamilyReader, R: Threads + Sync, K: Sink>(
    rt: &R,
    alloc: Global,
    head: &'static str,
    family: Family<T::Models>,
    asked: Replicate,
    out: &mut K,
) -> Ending
    requires bounds { AreInBounds asked }
    requires seed { family.seed < 2 ^ 63 }
    ensures ends { EndsModel K.Sink out.old out.new result (answer_to_family head.now asked (family_read T.Models.seeded T.Models.rows family)) }
    ensures known { status_of_ending result ≤ EVENT_LIMIT }
{
    let study = Study {
        models: family.models,
        head,
        row_bytes: family.row_bytes,
        terms: family.terms,
        first_tick: asked.first_tick,
        first_seed: asked.first_seed.unwrap_or(family.seed),
    };
    let workers = asked.workers as u32;
    let count = asked.count;
    let outcome = write_table::<R, T::Model, T::Rows, T::Models, K>(
        rt, alloc, &study, count, workers, out,
    );
    ending_of(outcome)
}

/// Reads a model, and writes the table that is asked for.
fn tabulate_input<T: FamilyReader, R: Threads + Sync, S: Source, K: Sink>(
    rt: &R,
    alloc: Global,
    reader: &T,
    asked: Replicate,
    source: &mut S,
    out: &mut K,
) -> Ending
    requires { AreInBounds asked }
    ensures ends { EndsInput S.Source K.Sink source.old source.new out.old out.new result ENOUGH_BYTES
        (λ bytes. answer_to_read T.reading asked (T.reading.read bytes)) }
    ensures known { status_of_ending result ≤ EVENT_LIMIT }
{
    let bytes = match read_all(alloc, source) {
        Ok(bytes) => bytes,
        Err(end) => return Ending::from(end),
    };
    match reader.read_family(alloc, bytes.as_slice()) {
        Ok(family) => tabulate::<T, R, K>(rt, alloc, reader.head(), family, asked, out),
        Err(Refusal::At { code, item }) => refused(alloc, code, reader.code_name(code), item),
        Err(Refusal::OutOfMemory) => Ending::OutOfMemory,
    }
}

/// Does what these words ask for, and answers how that ends: reads a model, runs it under as many seeds as the words say,
/// shared out among workers, and writes the table. Nothing is read where the words are refused.
pub fn run_words<T: FamilyReader, R: Threads + Sync, S: Source, K: Sink>(
    rt: &R,
    alloc: Global,
    reader: &T,
    words: &[String],
    source: &mut S,
    out: &mut K,
) -> Ending
    ensures ends { EndsAsked S.Source K.Sink source.old source.new out.old out.new result (table_asked_by T.reading (texts_of words.now)) }
    ensures known { status_of_ending result ≤ EVENT_LIMIT }
{
    match read_replicate_words(reader.window_start(), words) {
        Ok(asked) => tabulate_input(rt, alloc, reader, asked, source, out),
        Err(fault) => Ending::RefusedWords(fault),
    }
}
