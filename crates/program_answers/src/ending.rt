//! How the program ends.
ghost use Rattle.std.specs.Prelude.{◌≡◌};
ghost use Rattle.program_answers.specs.Endings.{ending_of};

use crate::status::{
    END, EVENT_FAULT, EVENT_LIMIT, MODEL, OUT_OF_MEMORY, READ_FAULT, STATE, WORDS, WRITE_FAULT,
};
use sim_io::{ReadEnd, WordFault};
use sim_spec::Stop;
use sim_text::Unfinished;

/// How the program ends.
#[derive(Drop)]
pub enum Ending {
    /// The simulation ran until it stopped.
    Stopped(Stop),
    /// The simulation was saved.
    Saved,
    /// The words were refused.
    RefusedWords(WordFault),
    /// The model was refused, which this line tells.
    RefusedModel { line: Vec<u8> },
    /// The saved state was refused, or has too long a text, which this line tells.
    RefusedState { line: Vec<u8> },
    /// The input could not be read.
    ReadFault,
    /// The text could not be written to its end.
    WriteFault,
    /// There was no memory left.
    OutOfMemory,
}

impl Ending {
    ghost use Rattle.program_answers.specs.Endings.{status_of_ending};

    /// The exit status.
    pub fn status(&self) -> u8
        ensures { result ≡ status_of_ending self.now }
    {
        match self {
            Ending::Stopped(Stop::End) | Ending::Saved => END,
            Ending::Stopped(Stop::Fault { .. }) => EVENT_FAULT,
            Ending::Stopped(Stop::Limit) => EVENT_LIMIT,
            Ending::RefusedWords(_) => WORDS,
            Ending::RefusedModel { .. } => MODEL,
            Ending::RefusedState { .. } => STATE,
            Ending::ReadFault => READ_FAULT,
            Ending::WriteFault => WRITE_FAULT,
            Ending::OutOfMemory => OUT_OF_MEMORY,
        }
    }
}

impl From<Unfinished> for Ending {
    ghost use Rattle.std.specs.Prelude.{◌≡◌};
    ghost use Rattle.program_answers.specs.Endings.{ending_of_cause};

    ghost from_gives = { λ cause ending. ending ≡ ending_of_cause cause };

    fn from(cause: Unfinished) -> Ending {
        match cause {
            Unfinished::WriteFault => Ending::WriteFault,
            Unfinished::OutOfMemory => Ending::OutOfMemory,
        }
    }
}

impl From<ReadEnd> for Ending {
    ghost use Rattle.std.specs.Prelude.{◌≡◌};
    ghost use Rattle.program_answers.specs.Endings.{ending_of_read};

    ghost from_gives = { λ end ending. ending ≡ ending_of_read end };

    fn from(end: ReadEnd) -> Ending {
        match end {
            ReadEnd::Failed => Ending::ReadFault,
            ReadEnd::OutOfMemory => Ending::OutOfMemory,
        }
    }
}

/// How the program ends where a simulation has ended so.
pub fn ending_of(outcome: Result<Stop, Unfinished>) -> Ending
    ensures { result ≡ ending_of outcome }
{
    match outcome {
        Ok(stop) => Ending::Stopped(stop),
        Err(cause) => Ending::from(cause),
    }
}
