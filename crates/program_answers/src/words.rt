//! The words of a process.
ghost use Rattle.std.specs.Prelude.{◌≡◌, ◌≢◌};
ghost use Rattle.sim_io.specs.declared.words.WordFault.TheVariants.{BadValue};
ghost use Rattle.program_answers.specs.Answer.{words_line};
ghost use Rattle.program_answers.specs.Endings.{IsRefusal};
ghost use Rattle.program_answers.specs.declared.status.TheConstants.{WORDS};

use crate::ending::Ending;
use sim_io::WordFault;
use std::alloc::AllocGlobal;
use std::env::Env;
use std::io::ErrorKind;
use std::{env, io};

/// The words that follow the program's name.
pub fn program_words<R: AllocGlobal + Env>(rt: &R) -> io::Result<Vec<String>> {
    let words = env::args(rt)?.skip(1).collect(rt.alloc())?;
    Ok(words)
}

/// How the program ends where its words can't be read, for this reason: one that is no text is refused like any faulty
/// word.
pub(crate) fn unread_words(kind: ErrorKind) -> Ending
    ensures no_memory { kind ≡ ErrorKind.OutOfMemory → result ≡ Ending.OutOfMemory }
    ensures no_text { kind ≢ ErrorKind.OutOfMemory → result ≡ Ending.RefusedWords BadValue }
    ensures refusal { IsRefusal WORDS (words_line BadValue) result }
{
    match kind {
        ErrorKind::OutOfMemory => Ending::OutOfMemory,
        _ => Ending::RefusedWords(WordFault::BadValue),
    }
}
