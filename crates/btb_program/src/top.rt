//! All that the program does, over any input and output.
ghost use Rattle.std.specs.Prelude.{IfSome};
ghost use Rattle.sim_io.specs.Words.{settings, texts_of};
ghost use Rattle.program_answers.specs.Answered.{Answers, streams};
ghost use Rattle.btb_program.specs.Answer.{asked_by};
ghost use Rattle.btb_program.specs.SavedRuns.{IsSavedSo};

use crate::running::run_words;
use model_program::{Gate, Stage};
use program_answers::conclude;
use sim_io::{Sink, Source};
use std::alloc::AllocGlobal;
use std::thread::Threads;

/// Does all that the program does with the words that follow its name, and answers the exit status.
///
/// | Status | Comes |
/// |---|---|
/// | 0 | exactly where the simulation ran to its end, or was saved |
/// | 1 | exactly where an event failed |
/// | 2 | exactly where the words are refused: nothing is read, and no memory is taken |
/// | 3 | exactly where the model is refused |
/// | 4 | only where reading failed, and never for a demo |
/// | 5 | only where writing to `out` failed, after a prefix of the text |
/// | 6 | where there was no memory left, after a prefix of the text |
/// | 7 | exactly where the limit of events was met |
/// | 8 | exactly where the saved state is refused, or the text of the state to be saved is too long, after the records |
///
/// 'Exactly' yields to 4, 5 and 6 alone, and for status 2 to none. A command that saves tells neither of a fault of an event
/// nor of the limit: these are told by the one that goes on from there.
pub fn btb<R: AllocGlobal + Threads + Sync, S: Source, K: Sink, N: Sink, G: Gate>(
    rt: &R,
    words: &Vec<String>,
    source: &mut S,
    out: &mut K,
    notes: &mut N,
    gate: &G,
) -> u8
    ensures answers { Answers S.Source K.Sink N.Sink result (streams source.old out.old notes.old) (streams source.new out.new notes.new)
        (asked_by words.now.items) }
    ensures saved { IfSome (S.left source.old) (IsSavedSo (settings (texts_of words.now.items)) result) }
{
    let stage = Stage {
        rt,
        alloc: rt.alloc(),
        gate,
    };
    let ending = run_words(stage, words, source, out);
    conclude(&ending, notes)
}
