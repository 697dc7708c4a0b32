//! What the words set: what runs the simulation, and what is told of it.
ghost use Rattle.std.specs.Prelude.{◌≡◌};
ghost use Rattle.sim_io.specs.Words.{AreInBounds};
ghost use Rattle.model_program.specs.Machines.{IsMachine, IsSpread};
ghost use Rattle.model_program.specs.Answer.{telling_of};
ghost use Rattle.model_program.specs.Setting.{machine_of, spread_of};

use crate::run::{DEFAULT_SPREAD, Machine, Spread};
use sim_io::Settings;
use sim_text::Telling;

/// How nodes are used, where they are: as it is set, or as by default.
pub fn spread_of(settings: Settings) -> Spread
    requires { AreInBounds settings }
    ensures value { result ≡ spread_of settings }
    ensures bounds { IsSpread result }
{
    match settings {
        Settings::Run {
            nodes,
            ahead,
            placement,
            workers,
            moves,
            ..
        } => Spread {
            nodes,
            ahead,
            placement,
            workers,
            moves,
        },
        Settings::One { .. }
        | Settings::Totals
        | Settings::Demo { .. }
        | Settings::Save { .. }
        | Settings::Resume => DEFAULT_SPREAD,
    }
}

/// What runs the simulation: nodes, or one thread.
pub fn machine_of(settings: Settings) -> Machine
    requires { AreInBounds settings }
    ensures value { result ≡ machine_of settings }
    ensures bounds { IsMachine result }
{
    match settings {
        Settings::One { .. } => Machine::OneThread,
        Settings::Run { .. }
        | Settings::Totals
        | Settings::Demo { .. }
        | Settings::Save { .. }
        | Settings::Resume => Machine::Nodes(spread_of(settings)),
    }
}

/// What is told of the simulation.
pub fn telling_of(settings: Settings) -> Telling
    ensures { result ≡ telling_of settings }
{
    match settings {
        Settings::Run { cycles, .. } | Settings::One { cycles } => Telling::Lines { cycles },
        Settings::Totals => Telling::Totals,
        Settings::Demo { n } => Telling::Demo { n },
        Settings::Save { .. } | Settings::Resume => Telling::Lines { cycles: false },
    }
}
