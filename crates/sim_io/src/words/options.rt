//! The options of a command, read word by word.
ghost use Rattle.std.specs.Prelude.{◌≡◌, IfOk};
ghost use Rattle.sim_io.specs.Words.{AreGivenInBounds, all_given, is_given, no_options, options_read, stray_word, texts_of, with_option, with_value, with_word};

use crate::words::WordFault;
use crate::words::commands::{Command, CommandOption, ValuedOption};
use crate::words::moves::Moves;
use crate::words::values::{moves_named, placement_named, small_number_within};
use model_core::{MOST_AHEAD, MOST_NODES};
use sim_spec::Placement;

/// The options that were given so far, with what they say.
#[derive(Clone, Copy)]
pub struct GivenOptions {
    pub nodes: Option<u32>,
    pub ahead: Option<u32>,
    pub placement: Option<Placement>,
    pub cycles: bool,
    pub workers: Option<u32>,
    pub moves: Option<Moves>,
    /// The option whose value is the next word.
    waiting: Option<ValuedOption>,
}

/// What is wrong with a word that stands for nothing.
pub fn stray_word(word: &str) -> WordFault
    ensures { result ≡ stray_word word.now }
{
    if word.as_bytes().starts_with(b"-") {
        WordFault::UnknownOption
    } else {
        WordFault::ExtraWord
    }
}

impl GivenOptions {
    /// None.
    fn none() -> GivenOptions
        ensures { result ≡ no_options }
    {
        GivenOptions {
            nodes: None,
            ahead: None,
            placement: None,
            cycles: false,
            workers: None,
            moves: None,
            waiting: None,
        }
    }

    /// Whether an option is among them.
    fn has(&self, option: CommandOption) -> bool
        ensures { result ≡ is_given self.now option }
    {
        match option {
            CommandOption::Cycles => self.cycles,
            CommandOption::Valued(ValuedOption::Nodes) => self.nodes.is_some(),
            CommandOption::Valued(ValuedOption::Ahead) => self.ahead.is_some(),
            CommandOption::Valued(ValuedOption::Placement) => self.placement.is_some(),
            CommandOption::Valued(ValuedOption::Workers) => self.workers.is_some(),
            CommandOption::Valued(ValuedOption::Moves) => self.moves.is_some(),
        }
    }

    /// These with one more option, which may wait for its value now.
    fn with_option(self, option: CommandOption) -> GivenOptions
        ensures { result ≡ with_option self option }
    {
        match option {
            CommandOption::Cycles => GivenOptions {
                cycles: true,
                ..self
            },
            CommandOption::Valued(valued) => GivenOptions {
                waiting: Some(valued),
                ..self
            },
        }
    }

    /// These with the value of an option.
    fn with_value(self, option: ValuedOption, value: &str) -> Result<GivenOptions, WordFault>
        requires { AreGivenInBounds self }
        ensures value { result ≡ with_value self option value.now }
        ensures bounds { IfOk result AreGivenInBounds }
    {
        let mut given = GivenOptions {
            waiting: None,
            ..self
        };
        match option {
            ValuedOption::Nodes => given.nodes = Some(small_number_within(1, MOST_NODES, value)?),
            ValuedOption::Ahead => given.ahead = Some(small_number_within(0, MOST_AHEAD, value)?),
            ValuedOption::Placement => given.placement = Some(placement_named(value)?),
            ValuedOption::Workers => given.workers = Some(small_number_within(
                1, MOST_NODES, value,
            )?),
            ValuedOption::Moves => given.moves = Some(moves_named(value)?),
        }
        Ok(given)
    }

    /// These with what one more word says: the value of the option that waits for one, or an option of the command.
    fn with_word(self, command: Command, word: &str) -> Result<GivenOptions, WordFault>
        requires { AreGivenInBounds self }
        ensures value { result ≡ with_word command self word.now }
        ensures bounds { IfOk result AreGivenInBounds }
    {
        if let Some(option) = self.waiting {
            return self.with_value(option, word);
        }
        match command.option(word) {
            None => Err(stray_word(word)),
            Some(option) if self.has(option) => Err(WordFault::RepeatedOption),
            Some(option) => Ok(self.with_option(option)),
        }
    }

    /// These, unless one still waits for its value.
    fn all(self) -> Result<GivenOptions, WordFault>
        ensures { result ≡ all_given self }
    {
        match self.waiting {
            None => Ok(self),
            Some(_) => Err(WordFault::MissingValue),
        }
    }
}

/// Reads the words after a command, which are its options.
pub fn read_options(command: Command, words: &[String]) -> Result<GivenOptions, WordFault>
    ensures value { result ≡ options_read command no_options (texts_of words.now) }
    ensures bounds { IfOk result AreGivenInBounds }
{
    let mut given = GivenOptions::none();
    for word in words {
        given = given.with_word(command, word.as_str())?;
    }
    given.all()
}
