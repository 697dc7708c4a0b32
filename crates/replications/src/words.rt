//! The words of `replicate`.
ghost use Rattle.std.specs.Prelude.{◌≡◌, IfOk};
ghost use Rattle.sim_io.specs.Words.{texts_of};
ghost use Rattle.replications.specs.ReplicateWords.{AreInBounds, choice_named, chosen, given_with, has_value, is_in_words, replicate_settings, value_of, walked, with_number};

use event_key::LAST_TICK;
use sim_io::{WordFault, number_within, stray_word};

/// How many replications there are at most.
pub const MOST_REPLICATIONS: u64 = 100_000;

/// The greatest seed: 2^63 - 1.
pub const LAST_SEED: u64 = 9_223_372_036_854_775_807;

/// How many workers there are at most.
pub const MOST_WORKERS: u64 = 64;

/// How many workers there are where nothing is asked for.
pub const DEFAULT_WORKERS: u64 = 4;

/// What is to be done.
#[derive(Clone, Copy, Debug, PartialEq, Eq)]
pub struct Replicate {
    /// How many replications, 1 to `MOST_REPLICATIONS`.
    pub count: u64,
    /// The seed of the first one, at most `LAST_SEED`, where it isn't the model's own.
    pub first_seed: Option<u64>,
    /// The first tick of the window, at most `LAST_TICK`.
    pub first_tick: u64,
    /// How many workers, 1 to `MOST_WORKERS`.
    pub workers: u64,
}

/// Where it is said from which tick on is counted.
#[derive(Clone, Copy, Debug, PartialEq, Eq)]
pub enum WindowStart {
    /// In the words, by `--from`.
    Words,
    /// In the model, so that no option says it.
    Model,
}

impl WindowStart {
    /// Whether `--from` is an option.
    fn is_in_words(self) -> bool
        ensures { result ≡ is_in_words self }
    {
        matches!(self, WindowStart::Words)
    }
}

/// An option, by what it sets.
#[derive(Clone, Copy, Debug, PartialEq, Eq)]
pub enum Choice {
    /// `--first`: the seed of the first replication.
    FirstSeed,
    /// `--from`: the first tick of the window.
    FirstTick,
    /// `--workers`: how many workers there are.
    Workers,
}

/// What options gave, each within the bounds that `Replicate` names.
#[derive(Clone, Copy, Debug, PartialEq, Eq)]
pub struct Given {
    pub first_seed: Option<u64>,
    pub first_tick: Option<u64>,
    pub workers: Option<u64>,
}

/// The option that a word names.
fn choice_named(start: WindowStart, word: &str) -> Option<Choice>
    ensures { result ≡ choice_named start word.now }
{
    match word {
        "--first" => Some(Choice::FirstSeed),
        "--from" if start.is_in_words() => Some(Choice::FirstTick),
        "--workers" => Some(Choice::Workers),
        _ => None,
    }
}

impl Choice {
    /// The number that a word gives it.
    fn value(self, word: &str) -> Result<u64, WordFault>
        ensures { result ≡ value_of self word.now }
    {
        match self {
            Choice::FirstSeed => number_within(0, LAST_SEED, word),
            Choice::FirstTick => number_within(0, LAST_TICK, word),
            Choice::Workers => number_within(1, MOST_WORKERS, word),
        }
    }
}

impl Given {
    /// Whether an option was given.
    fn has(&self, choice: Choice) -> bool
        ensures { result ≡ has_value self.now choice }
    {
        match choice {
            Choice::FirstSeed => self.first_seed.is_some(),
            Choice::FirstTick => self.first_tick.is_some(),
            Choice::Workers => self.workers.is_some(),
        }
    }

    /// With the number of an option.
    fn with(self, choice: Choice, number: u64) -> Given
        ensures { result ≡ with_number self choice number }
    {
        match choice {
            Choice::FirstSeed => Given {
                first_seed: Some(number),
                ..self
            },
            Choice::FirstTick => Given {
                first_tick: Some(number),
                ..self
            },
            Choice::Workers => Given {
                workers: Some(number),
                ..self
            },
        }
    }

    /// The option that a word names, where it wasn't given before.
    fn choose(&self, start: WindowStart, word: &str) -> Result<Choice, WordFault>
        ensures { result ≡ chosen start self.now word.now }
    {
        let Some(choice) = choice_named(start, word) else {
            return Err(stray_word(word));
        };
        if self.has(choice) {
            return Err(WordFault::RepeatedOption);
        }
        Ok(choice)
    }

    /// With what a word gives an option.
    fn take(self, choice: Choice, word: &str) -> Result<Given, WordFault>
        ensures { result ≡ given_with self choice word.now }
    {
        let number = choice.value(word)?;
        Ok(self.with(choice, number))
    }
}

/// What options give after those before them, each a word and its value.
#[tactic(auto, unfolding(crate::specs::ReplicateWords::walked))]
fn options(start: WindowStart, given: Given, words: &[String]) -> Result<Given, WordFault>
    ensures { result ≡ walked start given (texts_of words.now) }
{
    match words {
        [] => Ok(given),
        [word] => {
            given.choose(start, word.as_str())?;
            Err(WordFault::MissingValue)
        }
        [word, value, rest @ ..] => {
            let choice = given.choose(start, word.as_str())?;
            let next = given.take(choice, value.as_str())?;
            options(start, next, rest)
        }
    }
}

/// Reads these words: how many replications there are, and then options, each with its value behind it. It takes no memory. The
/// error is that of the first word that is wrong or has no value.
#[tactic(auto, unfolding(crate::specs::ReplicateWords::replicate_settings))]
pub fn read_replicate_words(start: WindowStart, words: &[String]) -> Result<Replicate, WordFault>
    ensures settings { result ≡ replicate_settings start (texts_of words.now) }
    ensures bounds { IfOk result AreInBounds }
{
    let [count, rest @ ..] = words else {
        return Err(WordFault::MissingValue);
    };
    let count = number_within(1, MOST_REPLICATIONS, count.as_str())?;
    let none = Given {
        first_seed: None,
        first_tick: None,
        workers: None,
    };
    let given = options(start, none, rest)?;
    Ok(Replicate {
        count,
        first_seed: given.first_seed,
        first_tick: given.first_tick.unwrap_or(0),
        workers: given.workers.unwrap_or(DEFAULT_WORKERS),
    })
}
