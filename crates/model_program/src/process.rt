//! The program over what a process has: its words and its three streams.
ghost use Rattle.std.specs.Prelude.{◌≤◌, IfOk, IfErr, IfSome};
ghost use Rattle.std.specs.Process.{exit_status};
ghost use Rattle.sim_io.specs.Words.{model_settings, texts_of};
ghost use Rattle.program_answers.specs.declared.status.TheConstants.{STATE};
ghost use Rattle.program_answers.specs.Answered.{streams};
ghost use Rattle.program_answers.specs.Process.{AnswersStreams, EndsProcess, LeavesStreams};
ghost use Rattle.model_program.specs.Answer.{asked_by};
ghost use Rattle.model_program.specs.SavedRuns.{IsSavedSo};

use crate::program::{ModelProgram, run_program};
use model_reader::ModelReader;
use node_team::Open;
use program_answers::{ProcessEnd, StdStreams, program_words};
use std::alloc::{AllocGlobal, Global};
use std::env::Env;
use std::io::{ErrorKind, Read, Write};
use std::process::ExitCode;
use std::thread::Threads;

/// Does what `run_program` does over a reader, a writer and another one for the notes, and hands them back: reads the model
/// from `input` and writes to `output`, in pieces of 16 KiB, and to `notes`.
pub fn run_streams<T, R, I, O, N>(
    rt: &R,
    reader: &T,
    words: Result<Vec<String>, ErrorKind>,
    input: I,
    output: O,
    notes: N,
) -> ProcessEnd<I, O, N>
where
    T: ModelReader,
    R: AllocGlobal + Threads + Sync,
    I: Read + Drop,
    O: Write + Drop,
    N: Write + Drop,
    ensures read { IfOk words (λ list.
        AnswersStreams I.remaining O.contents N.contents (streams input output notes) result (asked_by T.reading list.items)) }
    ensures saved { IfOk words (λ list. IfSome (I.remaining input) (IsSavedSo T.reading.read (model_settings (texts_of list.items)) result.status)) }
    ensures unread { IfErr words (LeavesStreams I.remaining O.contents N.contents (streams input output notes) result) }
    ensures known { result.status ≤ STATE }
{
    let program = ModelProgram {
        reader,
        gate: &Open,
    };
    let mut io = StdStreams::new(rt.alloc(), input, output, notes);
    let status = run_program(
        rt,
        &program,
        words,
        &mut io.source,
        &mut io.out,
        &mut io.notes,
    );
    io.end(status)
}

/// Does what `run_streams` does with the words of the process, which no contract can name: its status is the answer's to some
/// words, or that of words that can't be read. It is one of those that `run_program` lists.
pub fn run_process<T, R, I, O, N>(rt: &R, reader: &T, input: I, output: O, notes: N) -> ExitCode
where
    T: ModelReader,
    R: AllocGlobal + Env + Threads + Sync,
    I: Read + Drop,
    O: Write + Drop,
    N: Write + Drop,
    ensures known { exit_status result ≤ STATE }
    ensures ends { EndsProcess I.remaining O.contents N.contents (exit_status result) (streams input output notes) (asked_by T.reading) }
{
    let words = program_words(rt).map_err(|error| error.kind());
    let ended = run_streams(rt, reader, words, input, output, notes);
    ExitCode::from(ended.status)
}
