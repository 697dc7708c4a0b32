//! What is noted of how the program ends.
ghost use Rattle.std.specs.Prelude.{◌≡◌, IfOk, OnOk, OnErr};
ghost use Rattle.sim_io.specs.Taken.{Appends, Keeps};
ghost use Rattle.sim_io.specs.Causes.{HasCause};
ghost use Rattle.sim_io.specs.Transfers.{AppendsPrefix};
ghost use Rattle.program_answers.specs.Answer.{words_line, refusal_line};
ghost use Rattle.program_answers.specs.Answered.{NotesEnding, NotesNoWords};
ghost use Rattle.program_answers.specs.Endings.{line_of_ending, IsRefusal};
ghost use Rattle.program_answers.specs.declared.status.TheConstants.{MODEL};

use crate::ending::Ending;
use crate::words::unread_words;
use delta_exchange::OutOfMemory;
use sim_io::{Failed, Sink, WordFault, write_all};
use std::alloc::Global;
use std::io::ErrorKind;

/// The line for a model that is refused with a code of this name at this item.
#[tactic(auto, unfolding(crate::specs::Answer::refusal_line))]
fn refusal_line(alloc: Global, code: u8, name: &str, item: u32) -> Result<Vec<u8>, OutOfMemory>
    ensures { IfOk result (λ line. line.items ≡ refusal_line code name.now item) }
{
    let line = format!(in alloc; "model: {code} {name} item {item}\n")?;
    Ok(line.into_bytes())
}

/// The ending of a model that is refused with a code of this name at this item.
pub fn refused(alloc: Global, code: u8, name: &str, item: u32) -> Ending
    ensures { IsRefusal MODEL (refusal_line code name.now item) result }
{
    match refusal_line(alloc, code, name, item) {
        Ok(line) => Ending::RefusedModel { line },
        Err(_) => Ending::OutOfMemory,
    }
}

/// Notes that the words are refused, part by part: it takes no memory, since the words are judged before any is taken.
fn note_words<N: Sink>(notes: &mut N, fault: WordFault) -> Result<(), Failed>
    ensures all { OnOk result (Appends (N.told notes.old) (N.told notes.new) (words_line fault)) }
    ensures prefix { OnErr result (AppendsPrefix (N.told notes.old) (N.told notes.new) (words_line fault)) }
    ensures cause { HasCause (N.faults notes.old) (N.faults notes.new) result }
{
    write_all(notes, b"words: ")?;
    write_all(notes, fault.name().as_bytes())?;
    write_all(notes, b"\n")
}

/// Notes the line of an ending, where it has one.
fn note<N: Sink>(notes: &mut N, ending: &Ending) -> Result<(), Failed>
    ensures all { OnOk result (Appends (N.told notes.old) (N.told notes.new) (line_of_ending ending.now)) }
    ensures prefix { OnErr result (AppendsPrefix (N.told notes.old) (N.told notes.new) (line_of_ending ending.now)) }
    ensures cause { HasCause (N.faults notes.old) (N.faults notes.new) result }
{
    match ending {
        Ending::Stopped(_) | Ending::Saved => Ok(()),
        Ending::RefusedWords(fault) => note_words(notes, *fault),
        Ending::RefusedModel { line } | Ending::RefusedState { line } => {
            write_all(notes, line.as_slice())
        }
        Ending::ReadFault => write_all(notes, b"read failed\n"),
        Ending::WriteFault => write_all(notes, b"write failed\n"),
        Ending::OutOfMemory => write_all(notes, b"out of memory\n"),
    }
}

/// Notes the line of an ending, where it has one, and hands it on.
fn hand_on_note<N: Sink>(notes: &mut N, ending: &Ending) -> Result<(), Failed>
    ensures all { OnOk result (Appends (N.told notes.old) (N.told notes.new) (line_of_ending ending.now)) }
    ensures handed { OnOk result (Keeps (N.told notes.new) (N.handed notes.new)) }
    ensures prefix { AppendsPrefix (N.told notes.old) (N.told notes.new) (line_of_ending ending.now) }
    ensures cause { HasCause (N.faults notes.old) (N.faults notes.new) result }
{
    note(notes, ending)?;
    notes.flush()
}

/// Notes how the program ends, as far as that can be written and handed on, and answers its status.
pub fn conclude<N: Sink>(ending: &Ending, notes: &mut N) -> u8
    ensures { NotesEnding N.Sink notes.old notes.new result ending.now }
{
    let _told = hand_on_note(notes, ending);
    ending.status()
}

/// Notes why the words of a program can't be read, and answers the status. A program does nothing else with such words.
pub fn conclude_unread<N: Sink>(kind: ErrorKind, notes: &mut N) -> u8
    ensures { NotesNoWords N.Sink notes.old notes.new result kind }
{
    conclude(&unread_words(kind), notes)
}
