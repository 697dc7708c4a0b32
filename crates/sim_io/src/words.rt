//! The words of the command line.
ghost use Rattle.std.specs.Prelude.{◌≡◌, ◌≢◌, ◌≤◌, ℕ, IfOk};
ghost use Rattle.sim_io.specs.Words.{AreGivenInBounds, AreInBounds, command_settings, model_settings, only_number, run_settings, settings, settings_if, texts_of};
ghost use Rattle.sim_io.specs.declared.words.Settings.TheVariants.{Demo};

mod commands;
mod moves;
mod options;
mod values;

use crate::words::commands::Command;
use crate::words::options::{GivenOptions, read_options};
use crate::words::values::small_number_within;
use model_core::MOST_DEMO_STATIONS;
pub use moves::Moves;
pub use options::stray_word;
use sim_spec::Placement;
use thiserror::Error;
pub use values::{is_decimal, number_within};

/// What is wrong with the words.
#[derive(Clone, Copy, Debug, PartialEq, Eq, Error)]
pub enum WordFault {
    #[error("no command")]
    NoCommand,
    #[error("unknown command")]
    UnknownCommand,
    #[error("unknown option")]
    UnknownOption,
    #[error("repeated option")]
    RepeatedOption,
    #[error("missing value")]
    MissingValue,
    #[error("bad value")]
    BadValue,
    #[error("extra word")]
    ExtraWord,
}

impl WordFault {
    ghost use Rattle.sim_io.specs.Words.{fault_name};

    /// What the fault is called.
    pub fn name(self) -> &'static str
        ensures { result.now ≡ fault_name self }
    {
        match self {
            WordFault::NoCommand => "no command",
            WordFault::UnknownCommand => "unknown command",
            WordFault::UnknownOption => "unknown option",
            WordFault::RepeatedOption => "repeated option",
            WordFault::MissingValue => "missing value",
            WordFault::BadValue => "bad value",
            WordFault::ExtraWord => "extra word",
        }
    }
}

/// How many nodes there are where nothing is asked for.
pub const DEFAULT_NODES: u32 = 4;

/// How many events a node processes at most past what it must, where nothing is asked for.
pub const DEFAULT_AHEAD: u32 = 8;

/// After how many cycles a state is saved at most.
pub const MOST_SAVED_CYCLES: u32 = 9_999_999;

/// What is to be done.
#[derive(Clone, Copy, Debug, PartialEq, Eq)]
pub enum Settings {
    /// A simulation on nodes that work ahead, whose text is printed, with a line for each cycle where these are asked for.
    Run {
        /// How many nodes there are, 1 to 64.
        nodes: u32,
        /// How many events a node processes at most past what it must, 0 to 1,024.
        ahead: u32,
        placement: Placement,
        cycles: bool,
        /// How many workers take nodes' turns and steal them from each other, 1 to 64, where they do.
        workers: Option<u32>,
        /// Which objects move to other nodes after a cycle, where some do.
        moves: Option<Moves>,
    },
    /// The same text, by the engine for one thread.
    One {
        cycles: bool,
    },
    /// Sums over what is told of each object, from a simulation on nodes as by default.
    Totals,
    /// A summary of the simulation of a large network that is made from a number, 1 to 256, on nodes as by default.
    Demo {
        n: u32,
    },
    /// The text of the first cycles of a simulation on nodes as by default, 0 to 9,999,999, and the state after them,
    /// from which it can be resumed.
    Save {
        /// How many cycles.
        c: u32,
    },
    /// The text of a simulation from a saved state, on nodes as by default.
    Resume,
}

/// What the options of a run set.
fn run_settings(given: &GivenOptions) -> Settings
    requires { AreGivenInBounds given.now }
    ensures value { result ≡ run_settings given.now }
    ensures bounds { AreInBounds result }
{
    Settings::Run {
        nodes: given.nodes.unwrap_or(DEFAULT_NODES),
        ahead: given.ahead.unwrap_or(DEFAULT_AHEAD),
        placement: given.placement.unwrap_or(Placement::Round),
        cycles: given.cycles,
        workers: given.workers,
        moves: given.moves,
    }
}

/// Reads the words of a command that takes one number and nothing else.
fn only_number(words: &[String], least: u32, most: u32) -> Result<u32, WordFault>
    ensures value { result ≡ only_number least most (texts_of words.now) }
    ensures low { IfOk result (λ number. least ≤ number) }
    ensures high { IfOk result (λ number. number ≤ most) }
{
    let [number, rest @ ..] = words else {
        return Err(WordFault::MissingValue);
    };
    let number = small_number_within(least, most, number.as_str())?;
    if rest.is_empty() {
        Ok(number)
    } else {
        Err(WordFault::ExtraWord)
    }
}

/// Reads the words after a command.
fn command_settings(command: Command, words: &[String]) -> Result<Settings, WordFault>
    ensures value { result ≡ command_settings command (texts_of words.now) }
    ensures bounds { IfOk result AreInBounds }
{
    match command {
        Command::Run => Ok(run_settings(&read_options(command, words)?)),
        Command::One => Ok(Settings::One {
            cycles: read_options(command, words)?.cycles,
        }),
        Command::Totals => {
            read_options(command, words)?;
            Ok(Settings::Totals)
        }
        Command::Demo => Ok(Settings::Demo {
            n: only_number(words, 1, MOST_DEMO_STATIONS)?,
        }),
        Command::Save => Ok(Settings::Save {
            c: only_number(words, 0, MOST_SAVED_CYCLES)?,
        }),
        Command::Resume => {
            read_options(command, words)?;
            Ok(Settings::Resume)
        }
    }
}

/// Reads the words after the first one, which names this command, if any.
fn settings_if(command: Option<Command>, words: &[String]) -> Result<Settings, WordFault>
    ensures value { result ≡ settings_if command (texts_of words.now) }
    ensures bounds { IfOk result AreInBounds }
{
    match command {
        None => Err(WordFault::UnknownCommand),
        Some(command) => command_settings(command, words),
    }
}

/// Reads the words that follow the program's name. It takes no memory.
#[tactic(auto, unfolding(crate::specs::Words::settings))]
pub fn read_words(words: &Vec<String>) -> Result<Settings, WordFault>
    ensures value { result ≡ settings (texts_of words.now.items) }
    ensures bounds { IfOk result AreInBounds }
{
    let [command, rest @ ..] = words.as_slice() else {
        return Err(WordFault::NoCommand);
    };
    settings_if(Command::named(command.as_str()), rest)
}

/// Reads them for a program that has no demos: to it `demo` is an unknown command.
#[tactic(auto, unfolding(crate::specs::Words::model_settings))]
pub fn read_model_words(words: &Vec<String>) -> Result<Settings, WordFault>
    ensures value { result ≡ model_settings (texts_of words.now.items) }
    ensures bounds { IfOk result AreInBounds }
    ensures no_demo { IfOk result (λ settings. (n : ℕ) → settings ≢ Demo n) }
{
    let [command, rest @ ..] = words.as_slice() else {
        return Err(WordFault::NoCommand);
    };
    settings_if(Command::named_but_demo(command.as_str()), rest)
}
