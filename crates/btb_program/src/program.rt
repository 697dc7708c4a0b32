//! All that the program does, with the words that follow its name as far as they could be read.
ghost use Rattle.std.specs.Prelude.{IfOk, IfErr, IfSome};
ghost use Rattle.sim_io.specs.Words.{settings, texts_of};
ghost use Rattle.program_answers.specs.Answered.{Answers, AnswersNoWords, streams};
ghost use Rattle.btb_program.specs.Answer.{asked_by};
ghost use Rattle.btb_program.specs.SavedRuns.{IsSavedSo};

use crate::top::btb;
use model_program::Gate;
use program_answers::conclude_unread;
use sim_io::{Sink, Source};
use std::alloc::AllocGlobal;
use std::io::ErrorKind;
use std::thread::Threads;

/// Does all that `btb` does, where the words could be read. Where they couldn't, nothing is read and nothing written to
/// `out`: the status is 6 where there was no memory for them, and else 2, since one of them is no text.
pub fn run_program<R: AllocGlobal + Threads + Sync, S: Source, K: Sink, N: Sink, G: Gate>(
    rt: &R,
    words: Result<Vec<String>, ErrorKind>,
    source: &mut S,
    out: &mut K,
    notes: &mut N,
    gate: &G,
) -> u8
    ensures read { IfOk words (λ list.
        Answers S.Source K.Sink N.Sink result (streams source.old out.old notes.old) (streams source.new out.new notes.new) (asked_by list.items)) }
    ensures saved { IfOk words (λ list. IfSome (S.left source.old) (IsSavedSo (settings (texts_of list.items)) result)) }
    ensures unread { IfErr words (AnswersNoWords N.Sink result (streams source.old out.old notes.old) (streams source.new out.new notes.new)) }
{
    match words {
        Ok(words) => btb(rt, &words, source, out, notes, gate),
        Err(kind) => conclude_unread(kind, notes),
    }
}
