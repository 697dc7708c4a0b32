//! All that the program does, with the words that follow its name as far as they could be read.
ghost use Rattle.std.specs.Prelude.{IfOk, IfErr, IfSome};
ghost use Rattle.sim_io.specs.Words.{model_settings, texts_of};
ghost use Rattle.program_answers.specs.Answered.{Answers, AnswersNoWords, streams};
ghost use Rattle.model_program.specs.Answer.{asked_by};
ghost use Rattle.model_program.specs.SavedRuns.{IsSavedSo};

use crate::run::Stage;
use crate::running::run_words;
use model_reader::ModelReader;
use node_team::Gate;
use program_answers::{conclude, conclude_unread};
use sim_io::{Sink, Source};
use std::alloc::AllocGlobal;
use std::io::ErrorKind;
use std::thread::Threads;

/// The program that runs the models of a reader, and a gate that is told what its nodes do.
#[derive_where(Clone, Copy)]
pub struct ModelProgram<'a, T, G> {
    pub reader: &'a T,
    pub gate: &'a G,
}

/// Does all that the program does with the words that follow its name, and answers the exit status. They are those of
/// `btb` but for `demo`, which is an unknown command.
///
/// | Status | Comes |
/// |---|---|
/// | 0 | exactly where the simulation ran to its end, or was saved |
/// | 1 | exactly where an event failed |
/// | 2 | exactly where the words are refused: nothing is read, and no memory is taken |
/// | 3 | exactly where the model is refused |
/// | 4 | only where reading failed |
/// | 5 | only where writing to `out` failed, after a prefix of the text |
/// | 6 | where there was no memory left, after a prefix of the text |
/// | 7 | exactly where the limit of events was met |
/// | 8 | exactly where the saved state is refused, or the text of the state to be saved is too long, after the records |
///
/// 'Exactly' yields to 4, 5 and 6 alone, and for status 2 to none. A command that saves tells neither of a fault of an event
/// nor of the limit: these are told by the one that goes on from there. Where the words couldn't be read, nothing is read and
/// nothing written to `out`: the status is 6 where there was no memory for them, and else 2, since one of them is no text.
pub fn run_program<T, R, S, K, N, G>(
    rt: &R,
    program: &ModelProgram<T, G>,
    words: Result<Vec<String>, ErrorKind>,
    source: &mut S,
    out: &mut K,
    notes: &mut N,
) -> u8
where
    T: ModelReader,
    R: AllocGlobal + Threads + Sync,
    S: Source,
    K: Sink,
    N: Sink,
    G: Gate,
    ensures read { IfOk words (λ list. Answers S.Source K.Sink N.Sink result
        (streams source.old out.old notes.old) (streams source.new out.new notes.new) (asked_by T.reading list.items)) }
    ensures saved { IfOk words (λ list. IfSome (S.left source.old) (IsSavedSo T.reading.read (model_settings (texts_of list.items)) result)) }
    ensures unread { IfErr words (AnswersNoWords N.Sink result (streams source.old out.old notes.old) (streams source.new out.new notes.new)) }
{
    match words {
        Ok(words) => {
            let stage = Stage {
                rt,
                alloc: rt.alloc(),
                gate: program.gate,
            };
            let ending = run_words(stage, program.reader, &words, source, out);
            conclude(&ending, notes)
        }
        Err(kind) => conclude_unread(kind, notes),
    }
}
