//! All that the program `replicate` does.
ghost use Rattle.std.specs.Prelude.{◌≤◌, IfOk, IfErr};
ghost use Rattle.program_answers.specs.Answered.{Answers, AnswersNoWords, streams};
ghost use Rattle.program_answers.specs.declared.status.TheConstants.{EVENT_LIMIT};
ghost use Rattle.replicate_program.specs.TableAnswers.{table_asked_by};

use crate::reader::ReplicateTexts;
use program_answers::{conclude, conclude_unread};
use sim_io::{Sink, Source};
use std::alloc::AllocGlobal;
use std::io::ErrorKind;
use std::thread::Threads;
use table_program::run_words;

/// Reads a model, runs it under as many seeds as the words say, shared out among workers, and writes the table: a head line,
/// and the rows of each replication in the order of the seeds. The table is the same for any number of workers and any
/// schedule of threads. The result is the exit status.
///
/// | Status | Comes |
/// |---|---|
/// | 0 | exactly where each replication ran to its end |
/// | 1 | exactly where some replication stopped at a fault |
/// | 2 | exactly where the words are refused: nothing is read, and no memory is taken |
/// | 3 | exactly where the model is refused |
/// | 4 | only where reading failed |
/// | 5 | only where writing to `out` failed, after a prefix of the table |
/// | 6 | where there was no memory left, after a prefix of the table |
/// | 7 | exactly where some replication met its limit of events, and none a fault |
///
/// 'Exactly' yields to 4, 5 and 6 alone, and for status 2 to none. Where the words can't be read, the status is 6 where there
/// was no memory for them, and else 2, since one of them is no text.
pub fn replicate<R: AllocGlobal + Threads + Sync, S: Source, K: Sink, N: Sink>(
    rt: &R,
    words: Result<Vec<String>, ErrorKind>,
    source: &mut S,
    out: &mut K,
    notes: &mut N,
) -> u8
    ensures read { IfOk words (λ list.
        Answers S.Source K.Sink N.Sink result (streams source.old out.old notes.old) (streams source.new out.new notes.new) (table_asked_by list.items)) }
    ensures unread { IfErr words
        (AnswersNoWords N.Sink result (streams source.old out.old notes.old) (streams source.new out.new notes.new)) }
    ensures known { result ≤ EVENT_LIMIT }
{
    match words {
        Ok(words) => {
            let ending = run_words(
                rt,
                rt.alloc(),
                &ReplicateTexts,
                words.as_slice(),
                source,
                out,
            );
            conclude(&ending, notes)
        }
        Err(kind) => conclude_unread(kind, notes),
    }
}
