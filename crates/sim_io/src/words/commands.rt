//! The commands and their options.
ghost use Rattle.std.specs.Prelude.{◌≡◌};
ghost use Rattle.sim_io.specs.Words.{but_demo, command_named, option_named, option_of, takes};

/// A command.
#[derive(Clone, Copy)]
pub enum Command {
    Run,
    One,
    Totals,
    Demo,
    Save,
    Resume,
}

/// An option of a command.
#[derive(Clone, Copy)]
pub enum CommandOption {
    /// A line for each cycle.
    Cycles,
    /// One whose value is the next word.
    Valued(ValuedOption),
}

/// An option that takes a value.
#[derive(Clone, Copy)]
pub enum ValuedOption {
    Nodes,
    Ahead,
    Placement,
    Workers,
    Moves,
}

impl Command {
    /// The command that a word names.
    pub fn named(word: &str) -> Option<Command>
        ensures { result ≡ command_named word.now }
    {
        match word {
            "run" => Some(Command::Run),
            "one" => Some(Command::One),
            "totals" => Some(Command::Totals),
            "demo" => Some(Command::Demo),
            "save" => Some(Command::Save),
            "resume" => Some(Command::Resume),
            _ => None,
        }
    }

    /// The same for a program that has no demos.
    pub fn named_but_demo(word: &str) -> Option<Command>
        ensures { result ≡ but_demo (command_named word.now) }
    {
        match Command::named(word) {
            Some(Command::Demo) => None,
            command => command,
        }
    }

    /// Whether the command has an option.
    fn takes(self, option: CommandOption) -> bool
        ensures { result ≡ takes self option }
    {
        match self {
            Command::Run => true,
            Command::One => matches!(option, CommandOption::Cycles),
            Command::Totals | Command::Demo | Command::Save | Command::Resume => false,
        }
    }

    /// The option of the command that a word names.
    pub fn option(self, word: &str) -> Option<CommandOption>
        ensures { result ≡ option_of self word.now }
    {
        match CommandOption::named(word) {
            Some(option) if self.takes(option) => Some(option),
            _ => None,
        }
    }
}

impl CommandOption {
    /// The option that a word names.
    fn named(word: &str) -> Option<CommandOption>
        ensures { result ≡ option_named word.now }
    {
        let valued = match word {
            "--cycles" => return Some(CommandOption::Cycles),
            "--nodes" => ValuedOption::Nodes,
            "--ahead" => ValuedOption::Ahead,
            "--placement" => ValuedOption::Placement,
            "--workers" => ValuedOption::Workers,
            "--moves" => ValuedOption::Moves,
            _ => return None,
        };
        Some(CommandOption::Valued(valued))
    }
}
